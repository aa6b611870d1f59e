// The parameters of components, as numbers in lent memory: a string as its place in the bytes that the commands stand in.
ghost use Rattle.std.specs.Prelude.{◌≡◌, ◌+◌, ◌≤◌, ◌<◌, cond, eqb, length};
ghost use Rattle.rules.specs.Limits.{limits, param_numbers};
ghost use Rattle.run_slots.specs.Params.{params_from, params_at, stored, over_params};

use rules::controller::{Controller, Memory, PARAMETER_NUMBERS};

// 0 is unset: where the URI and the digest start, and one more than the source and the size.
#[derive(Clone, Copy)]
pub struct Params {
    pub uri: usize,
    pub length: usize,
    pub source: usize,
    pub digest: usize,
    pub size: usize,
}

pub fn load(memory: &Memory, i: usize) -> Params
    requires { i < limits.components }
    ensures { result ≡ params_at memory.now i }
{
    let at = Controller::COMPONENTS + PARAMETER_NUMBERS * i;
    Params {
        uri: memory[at],
        length: memory[at + 1],
        source: memory[at + 2],
        digest: memory[at + 3],
        size: memory[at + 4],
    }
}

pub fn store(memory: &mut [usize], i: usize, p: Params)
    requires { params_from i + param_numbers ≤ length memory.old }
    ensures { memory.new ≡ stored memory.old i p }
{
    let at = Controller::COMPONENTS + PARAMETER_NUMBERS * i;
    memory[at] = p.uri;
    memory[at + 1] = p.length;
    memory[at + 2] = p.source;
    memory[at + 3] = p.digest;
    memory[at + 4] = p.size;
}

// x where `test` is set, else y.
pub fn either(test: usize, x: usize, y: usize) -> usize
    ensures { result ≡ cond (eqb test 0) y x }
{
    if test == 0 { y } else { x }
}

// Those of a, and those of b that a leaves unset.
pub fn over(a: Params, b: Params) -> Params
    ensures { result ≡ over_params a b }
{
    Params {
        uri: either(a.uri, a.uri, b.uri),
        length: either(a.uri, a.length, b.length),
        source: either(a.source, a.source, b.source),
        digest: either(a.digest, a.digest, b.digest),
        size: either(a.size, a.size, b.size),
    }
}
