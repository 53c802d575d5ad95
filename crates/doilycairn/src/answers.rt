// What every answer tells C first: its number, and the block that it names.
ghost use Rattle.std.specs.Prelude.{◌≡◌};
ghost use Rattle.doilycairn.specs.Codes.{code_of, entry_of};

use whole::Reason;

// The number of an answer: 0 where the call is accepted.
pub(crate) fn code_of<A, R: Reason + Copy>(answer: &Result<A, R>) -> u32
    ensures { result ≡ code_of R.number R.named answer.now }
{
    match answer {
        Ok(_) => 0,
        Err(why) => why.code(),
    }
}

// The block that an answer names: 0 where it names none.
// Stays: two functions, since five of C's structs have a code and no entry.
pub(crate) fn entry_of<A, R: Reason + Copy>(answer: &Result<A, R>) -> u32
    ensures { result ≡ entry_of R.number R.named answer.now }
{
    match answer {
        Ok(_) => 0,
        Err(why) => why.bad_block(),
    }
}
