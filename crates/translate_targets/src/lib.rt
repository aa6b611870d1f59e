// Where a failed condition goes on.
#![tactic(auto)]

ghost use Rattle.std.specs.Prelude.{◌≡◌, ◌+◌, ◌≤◌, ◌&&◌, cond};
ghost use Rattle.rules.specs.Limits.{limits};
ghost use Rattle.manifest_accessors.specs.Arguments.{is_true};

use manifest_accessors::arguments::COERCE_TRUE;

// The target of a failed condition: `beyond` in a sequence that a run sequence holds, where coerce is true.
pub fn caught(coercible: bool, coerce: usize, beyond: usize, target: usize) -> usize
    ensures { result ≡ cond (coercible && is_true coerce) beyond target }
{
    if coercible && coerce == COERCE_TRUE {
        beyond
    } else {
        target
    }
}

// The record after a sequence of that many, the first of which has number n: there a failure under the sequence's coerce goes on.
pub fn record_after(n: usize, records: usize) -> usize
    requires { n + records ≤ limits.records }
    ensures { result ≡ n + records }
{
    n + records
}
