// What a call answers, for printing.
ghost use Rattle.std.specs.Prelude.{◌≡◌, IfOk, OnErr};
ghost use Rattle.refusals.specs.Number.{refused_by};

use refusals::Refusal;

// The number of refusal, and the value, or one that stands for it where there is none. An accepted call has the number 0.
pub fn numbered<T: Copy>(answer: Result<T, Refusal>, none: T) -> (u64, T)
    ensures number { result.0 ≡ refused_by answer }
    ensures accepted { IfOk answer (λ value. result.1 ≡ value) }
    ensures refused { OnErr answer (result.1 ≡ none) }
{
    match answer {
        Ok(value) => (0, value),
        Err(refusal) => (refusal.number(), none),
    }
}
