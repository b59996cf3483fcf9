// All rules of a train on a line.
ghost use Rattle.std.specs.Prelude.{◌≡◌, IfOk};
ghost use Rattle.rules.specs.Refusal.{refusal, rules_on};
ghost use Rattle.refusals.specs.Number.{refused_by};
ghost use Rattle.values.specs.Values.{as_line, as_train};

use crate::line_rules::check_sized;
use crate::train_rules::train_kept;
use refusals::Refusal;
use values::{Line, Train};

// The first broken rule of 3 to 9 and 15 of a train on a line, whatever the two hold.
pub fn check_on(line: Line, train: Train) -> Result<(), Refusal>
    ensures { refused_by result ≡ refusal (rules_on (as_line line) (as_train train)) }
{
    let kept = train_kept(line, train);
    Refusal::Sizes.unless(kept.sizes)?;
    check_sized(line)?;
    kept.check()
}

// A line and a train that keep the rules 3 to 9 and 15 together.
#[derive(Clone, Copy)]
pub struct OnLine {
    pub line: Line,
    pub train: Train,
    ghost keeps: { refusal (rules_on (as_line line) (as_train train)) ≡ 0 },
}

// This train on this line, or the first rule that they break.
pub fn admit(line: Line, train: Train) -> Result<OnLine, Refusal>
    ensures refusal { refused_by result ≡ refusal (rules_on (as_line line) (as_train train)) }
    ensures as_given { IfOk result (λ on. (on.line ≡ line) × (on.train ≡ train)) }
{
    check_on(line, train)?;
    Ok(OnLine { line, train })
}
