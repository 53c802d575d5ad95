// The sizes of a clip and the places in its image.
// Stays: N's limits are asked in words, here and in the crates above, since C's states and heads and the files hold N as a plain number.
ghost use Rattle.std.specs.Prelude.{◌≤◌, ◌<◌, ◌≡◌};
ghost use Rattle.layout.specs.Limits.{Limits};
ghost use Rattle.layout.specs.Sizes.{shape, told_loop, loop_count, last_frame_samples, block_count, body_bytes, bodies_place, entry_place, image_size, cut_down, block_length};
ghost use Rattle.whole.specs.Frames.{frame_count};

use crate::{ENTRY_BYTES, HEAD_BYTES, Loop, Shape};
use whole::{BYTES_PER_FRAME, SAMPLES_PER_FRAME};

// The shape of a clip of N samples in blocks of B bytes, with some entries after those of its blocks. It is internal: clip and image call it.
pub fn shape_of(total: u32, block: u32, extra: u32) -> Shape
    ensures { result ≡ shape total block extra }
{
    Shape {
        total: total as usize,
        block: block as usize,
        extra: extra as usize,
    }
}

// A loop; zeros where there is none. It is internal: clip calls it.
pub fn told_loop(looped: Loop) -> Loop
    ensures { result ≡ told_loop looped }
{
    if looped.present {
        looped
    } else {
        Loop::default()
    }
}

// How many entries a loop adds. It is internal: clip calls it.
pub fn loop_count(looped: Loop) -> u32
    ensures { result ≡ loop_count looped }
{
    u32::from(looped.present)
}

// Frames of n samples, the last one filled. It is internal: clip and image call it.
#[tactic(auto, unfolding(whole::specs::Frames::frame_count))]
pub fn frame_count(n: usize) -> usize
    requires { n ≤ 14680064 }
    ensures same { result ≡ frame_count n }
    ensures most { result ≤ 1048576 }
{
    n.div_ceil(SAMPLES_PER_FRAME)
}

// Samples in the last frame. It is internal: image calls it.
#[tactic(auto, unfolding(whole::specs::Frames::frame_count, crate::specs::Sizes::last_frame_samples))]
pub fn last_samples(total: usize) -> usize
    requires { (1 ≤ total) × (total ≤ 14680064) }
    ensures same { result ≡ last_frame_samples total }
    ensures most { result ≤ 14 }
{
    total - SAMPLES_PER_FRAME * (frame_count(total) - 1)
}

// Blocks of a clip. It is internal: clip and image call it.
#[tactic(auto, using(crate::proofs::SizeLaws::rounded_up), unfolding(crate::specs::Sizes::block_count))]
pub fn block_count(shape: Shape) -> usize
    requires { Limits shape }
    ensures same { result ≡ block_count shape }
    ensures most { result ≤ 1048576 }
{
    (BYTES_PER_FRAME * frame_count(shape.total)).div_ceil(shape.block)
}

// Bytes of a clip's bodies. It is internal: clip calls it.
#[tactic(auto, unfolding(whole::specs::Frames::frame_count, crate::specs::Sizes::body_bytes, crate::specs::Sizes::last_frame_samples))]
pub fn body_bytes(total: usize) -> usize
    requires { (1 ≤ total) × (total ≤ 14680064) }
    ensures same { result ≡ body_bytes total }
    ensures most { result ≤ 8388608 }
{
    BYTES_PER_FRAME * (frame_count(total) - 1) + 1 + last_samples(total).div_ceil(2)
}

// Where block j's entry stands. It is internal: clip, image and doilycairn call it.
pub fn entry_place(j: usize) -> usize
    requires { j ≤ 1048577 }
    ensures { result ≡ entry_place j }
{
    HEAD_BYTES + ENTRY_BYTES * j
}

// Where the bodies begin. It is internal: clip and image call it.
pub fn bodies_place(shape: Shape) -> usize
    requires { Limits shape }
    ensures { result ≡ bodies_place shape }
{
    entry_place(block_count(shape) + shape.extra)
}

// Bytes of a clip's image. It is internal: clip and image call it.
#[tactic(auto, using(crate::proofs::SizeLaws::fitting), unfolding(crate::specs::Sizes::image_size))]
pub fn image_size(shape: Shape) -> usize
    requires { Limits shape }
    ensures { result ≡ image_size shape }
{
    bodies_place(shape) + body_bytes(shape.total)
}

// A block size cut down to a multiple of 8. It is internal: clip and doilycairn call it.
#[tactic(auto, unfolding(crate::specs::Sizes::cut_down))]
pub fn cut_down(size: u32) -> u32
    ensures { result ≡ cut_down size }
{
    size / 8 * 8
}

// The nibbles of block j. It is internal: clip and image call it.
#[tactic(auto, using(crate::proofs::SizeLaws::fitting, std::proofs::lemmas::Bool::Decides::nat_tests), unfolding(crate::specs::Sizes::block_length))]
pub fn block_length(shape: Shape, j: usize) -> usize
    requires { Limits shape × (j < block_count shape) }
    ensures same { result ≡ block_length shape j }
    ensures most { result < 4294967296 }
{
    let per = shape.block / BYTES_PER_FRAME;
    let frames = frame_count(shape.total);
    let first = j * per;
    if first + per < frames {
        16 * per
    } else {
        16 * (frames - 1 - first) + (last_samples(shape.total) + 2)
    }
}
