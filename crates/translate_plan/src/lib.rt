// The plan of a group: its sequences sized, and written one after the other.
#![tactic(auto)]

ghost use Rattle.translate_plan.specs.Plan.{PlanHere, PlanSized, PlanJob, PlanWrites};

use manifest_accessors::arguments::COERCE_FALSE;
use rules::controller::{Controller, PlanStarts};
use rules::program_format::NO_TARGET;
use rules_tables::Table;
use translate_record::record::WriteState;
use translate_sequence::write::write_sequence;
use translate_size::sizes::{Size, size_sequence};

// The size of the plan, from where its sequences start.
pub fn size_plan(s: &[u8], table: &Table, starts: &PlanStarts, total: usize) -> Size
    requires { PlanHere s.now table.now starts.now total }
    ensures { (j : PlanHere s.now table.now starts.now total) → PlanSized j.plan result }
{
    let mut now = Size {
        next: 0,
        records: 0,
        arguments: 0,
    };
    for start in &starts[..total] {
        let r = size_sequence(s, table, Controller::DEPTH, *start);
        now = Size {
            next: 0,
            records: now.records + r.records,
            arguments: now.arguments + r.arguments,
        };
    }
    now
}

// The records of the plan, written from `to` on. Each sequence starts with index 0, also where common is repeated.
pub fn write_plan(
    s: &[u8],
    table: &Table,
    starts: &PlanStarts,
    total: usize,
    to: usize,
    room: &mut [u8],
)
    requires { PlanJob s.now table.now starts.now total to room.old }
    ensures { PlanWrites s.now table.now starts.now total to room }
{
    let mut n = 0;
    let mut at = to;
    for start in &starts[..total] {
        let state = WriteState {
            next: *start,
            index: 0,
            coerce: COERCE_FALSE,
            n,
            to: at,
        };
        let r = write_sequence(
            s,
            table,
            Controller::DEPTH,
            false,
            NO_TARGET,
            0,
            state,
            room,
        );
        n = r.n;
        at = r.to;
    }
}
