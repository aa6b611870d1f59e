// The command line of the depot tool: which job its words ask for.
#![tactic(auto)]

ghost use Rattle.std.specs.Prelude.{◌≡◌};
ghost use Rattle.depot_usage.specs.Usage.{told_of, job_of, words_of, most_of, asked_of};
ghost use Rattle.depot_usage.specs.Usage.{fits as Usage·fits};

use rules::answers::Group;

#[derive(Clone, Copy)]
pub enum Job {
    Check,
    Show,
    Newer,
    Translate,
    List,
    Run,
    RunProgram,
    Batch,
    Help,
    Version,
    Unknown,
}

// What is told of the tool itself.
#[tactic(auto, using(crate::proofs::WordLaws::not_same), unfolding(crate::specs::Usage::told_of))]
fn told_of(word: &str) -> Job
    ensures { result ≡ told_of word.now }
{
    match word {
        "help" | "--help" | "-h" => Job::Help,
        "--version" => Job::Version,
        _ => Job::Unknown,
    }
}

// The job that the first word names.
#[tactic(auto, using(crate::proofs::WordLaws::not_same), unfolding(crate::specs::Usage::job_of))]
pub fn job_of(word: &[u8]) -> Job
    ensures { result ≡ job_of word.now }
{
    let Ok(word) = str::from_utf8(word) else {
        return Job::Unknown;
    };
    match word {
        "check" => Job::Check,
        "show" => Job::Show,
        "newer" => Job::Newer,
        "translate" => Job::Translate,
        "list" => Job::List,
        "run" => Job::Run,
        "run-program" => Job::RunProgram,
        "batch" => Job::Batch,
        _ => told_of(word),
    }
}

// How many words a job takes, the first among them.
fn words_of(job: Job) -> usize
    ensures { result ≡ words_of job }
{
    match job {
        Job::Help | Job::Version | Job::Unknown => 1,
        Job::Check | Job::Show | Job::List | Job::Batch => 2,
        Job::Newer | Job::RunProgram => 3,
        Job::Translate | Job::Run => 4,
    }
}

// And at most: a run may have two more, `--then` and a file.
fn most_of(job: Job) -> usize
    ensures { result ≡ most_of job }
{
    match job {
        Job::Run => 6,
        Job::RunProgram => 5,
        _ => words_of(job),
    }
}

// Whether a job takes that many words.
#[tactic(auto, unfolding(crate::specs::Usage::fits))]
pub fn fits(job: Job, count: usize) -> bool
    ensures { result ≡ Usage·fits job count }
{
    count == words_of(job) || count == most_of(job)
}

// The group that a word names.
#[tactic(auto, using(crate::proofs::WordLaws::not_same), unfolding(crate::specs::Usage::asked_of))]
pub fn asked_group(word: &[u8]) -> Option<Group>
    ensures { result ≡ asked_of word.now }
{
    let Ok(word) = str::from_utf8(word) else {
        return None;
    };
    match word {
        "install" => Some(Group::Install),
        "boot" => Some(Group::Boot),
        _ => None,
    }
}
