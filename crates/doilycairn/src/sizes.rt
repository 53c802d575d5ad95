// How much room the calls' buffers need.
ghost use Rattle.std.specs.Prelude.{◌≡◌, ◌≤◌};
ghost use Rattle.coefficients.specs.Measure.{needed};
ghost use Rattle.doilycairn.specs.Sizes.{size_with, image_size, loop_image_size};

use layout::sizes::{cut_down, image_size, shape_of};
use layout::{LEAST_BLOCK, MOST_BLOCK};
use whole::{MOST_SAMPLES, SAMPLES_PER_FRAME};

// The numbers of the store that measuring so many samples needs.
#[tactic(auto, unfolding(whole::specs::Frames::frame_count))]
#[unsafe(no_mangle)]
pub extern "C" fn doilycairn_store_size(samples: u32) -> u64
    ensures { result ≡ needed samples }
{
    // Stays: crate coefficients' needed is its own, and asks for at most 14,680,064 samples; C asks of any number.
    2 * u64::from(samples).div_ceil(SAMPLES_PER_FRAME as u64)
}

// The bytes of a clip's image, with some entries after those of its blocks; 0 where starting it is refused by 4 or 6.
#[tactic(auto, using(std::proofs::lemmas::Bool::Decides::nat_tests), unfolding(crate::specs::Sizes::size_with, layout::specs::Sizes::cut_down))]
fn size_with(total: u32, block_size: u32, extra: u32) -> u64
    requires { extra ≤ 1 }
    ensures { result ≡ size_with total block_size extra }
{
    if !(1..=MOST_SAMPLES).contains(&total) || !(LEAST_BLOCK..=MOST_BLOCK).contains(&block_size) {
        return 0;
    }
    let shape = shape_of(total, cut_down(block_size), extra);
    image_size(shape) as u64
}

// The bytes of a clip's image without a loop; 0 where starting it is refused by 4 or 6.
#[unsafe(no_mangle)]
pub extern "C" fn doilycairn_image_size(total: u32, block_size: u32) -> u64
    ensures { result ≡ image_size total block_size }
{
    size_with(total, block_size, 0)
}

// The bytes of a clip's image with a loop; 0 where starting it is refused by 4 or 6.
#[unsafe(no_mangle)]
// Stays: beside doilycairn_image_size, since C calls each by its name.
pub extern "C" fn doilycairn_loop_image_size(total: u32, block_size: u32) -> u64
    ensures { result ≡ loop_image_size total block_size }
{
    size_with(total, block_size, 1)
}
