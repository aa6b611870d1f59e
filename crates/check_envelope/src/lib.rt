// Check: an envelope is checked against the rules of document 01.
#![tactic(auto)]

ghost use Rattle.std.specs.Prelude.{◌≡◌};
ghost use Rattle.rules.specs.Check as Check;
ghost use Rattle.check_envelope.specs.Report.{report_of, numbers_in, numbers_of};

use cbor_reading::refuse;
use check_manifest::read_body;
use outer::read_outer;
use report::{Place, Report};
use rules::answers::{Fault, Refusal};
use rules::controller::Controller;
use rules_tables::tables;

mod outer;
pub mod report;

// Checks an envelope: what it holds and where, or the first fault.
pub fn check(s: &[u8]) -> Result<Report, Fault>
    ensures { (result ≡ report_of (Check.check s.now)) × (numbers_in result ≡ numbers_of (Check.check s.now)) }
{
    let end = s.len();
    if Controller::ENVELOPE_BYTES < end {
        return refuse(Refusal::EnvelopeTooLong, 0);
    }
    let m = read_outer(s, end)?;
    let to = m.at + m.value;
    let table = tables();
    let b = read_body(s, &table, to, m.at)?;
    if b.at != to || b.at != end {
        return refuse(Refusal::NotCbor, b.at);
    }
    let ids = b.ids;
    let sections = b.sections;
    Ok(Report {
        number: b.number,
        components: b.components,
        ids,
        manifest: Place { from: m.at, to },
        common: Place {
            from: b.from,
            to: b.to,
        },
        sections,
    })
}
