//! How an answer is written.
ghost use Rattle.std.specs.Prelude.{◌≡◌};
ghost use Rattle.versions_c.specs.Crossing.{code_of, put_or};

use total_versions::Refusal;

// Puts the answer into the place, where there is one. Returns 0 there, and else the code of the refusal.
pub(crate) fn written<A: Drop>(answer: Result<A, Refusal>, place: &mut A) -> u32
    ensures code { result ≡ code_of answer }
    ensures put { place.new ≡ put_or place.old answer }
{
    match answer {
        Ok(value) => {
            *place = value;
            0
        }
        Err(refusal) => refusal.code(),
    }
}
