// The types of which the tables of commands and parameters are made.

// What stands after a command's code.
#[derive(Clone, Copy)]
pub enum Argument {
    Sixteen,
    Nil,
    Index,
    Alternatives,
    Parameters,
    Sequence,
}

#[derive(Clone, Copy)]
pub struct Command {
    pub code: u8,
    // its failure is one that a run sequence or a try each may catch
    pub condition: bool,
    pub argument: Argument,
    pub sections: u8,
}

#[derive(Clone, Copy)]
pub enum Parameter {
    Coerce,
    Uri,
    Source,
    Digest,
    Size,
}

#[derive(Clone, Copy)]
pub struct ParameterRow {
    pub key: u8,
    pub parameter: Parameter,
}
