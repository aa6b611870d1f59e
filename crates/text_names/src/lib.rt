// The words for codes, keys and numbers of document 01, in lent room. Each table is a list of numbers, and the words in the same order.
#![tactic(auto)]

ghost use Rattle.std.specs.Prelude.{◌≡◌, ◌<◌};
ghost use Rattle.rules.specs.Commands.{section_key};
ghost use Rattle.rules.specs.Limits.{section_count};
ghost use Rattle.text.specs.Text.{Writes};
ghost use Rattle.text_rows.specs.Rows.{wide};
ghost use Rattle.text_names.specs.Words.{command_words, parameter_words, section_words, refusal_words, end_words, result_words};

use rules::answers::{End, Failure, Refusal};
use rules::{codes, program_format};
use text::put;
use text_rows::put_word;

// The numbers that have a word: commands, with the jump of a program; parameters; sections; refusals; the ends of a run.
const COMMANDS: [u8; 14] = [
    codes::VENDOR as u8,
    codes::CLASS as u8,
    codes::IMAGE_MATCH as u8,
    codes::SET_INDEX as u8,
    codes::ABORT as u8,
    codes::TRY_EACH as u8,
    codes::SET_PARAMETERS as u8,
    codes::OVERRIDE_PARAMETERS as u8,
    codes::FETCH as u8,
    codes::COPY as u8,
    codes::RUN as u8,
    codes::RUN_SEQUENCE as u8,
    codes::SWAP as u8,
    program_format::JUMP as u8,
];

const PARAMETERS: [u8; 5] = [
    codes::COERCE as u8,
    codes::URI as u8,
    codes::SOURCE as u8,
    codes::DIGEST as u8,
    codes::SIZE as u8,
];

const SECTIONS: [u8; 6] = [
    codes::COMMON as u8,
    codes::PAYLOAD_FETCH as u8,
    codes::INSTALL as u8,
    codes::VALIDATE as u8,
    codes::LOAD as u8,
    codes::RUN_SECTION as u8,
];

// The key before that of payload fetch, the first section after common.
const BEFORE_FETCH: usize = codes::PAYLOAD_FETCH - 1;

const REFUSALS: [u8; 20] = [
    Refusal::ENVELOPE_TOO_LONG as u8,
    Refusal::NOT_CBOR as u8,
    Refusal::MALFORMED as u8,
    Refusal::WRONG_VERSION as u8,
    Refusal::REPEATED_IDENTIFIER as u8,
    Refusal::UNKNOWN_COMMAND as u8,
    Refusal::UNKNOWN_PARAMETER as u8,
    Refusal::NOT_ALLOWED as u8,
    Refusal::NO_SUCH_COMPONENT as u8,
    Refusal::TOO_DEEP as u8,
    Refusal::TOO_MANY_COMMANDS as u8,
    Refusal::NOT_VERIFIED as u8,
    Refusal::EVENT_OPEN as u8,
    Refusal::WRONG_NUMBER as u8,
    Refusal::NO_SLOT as u8,
    Refusal::SHORT_TRACE as u8,
    Refusal::BAD_SLOTS as u8,
    Refusal::BAD_ANSWERS as u8,
    Refusal::SHORT_ROOM as u8,
    Refusal::BAD_PROGRAM as u8,
];

const ENDS: [u8; 10] = [
    End::FINISHED as u8,
    End::CONDITION_FAILED as u8,
    End::STARTED as u8,
    Failure::PARAMETER_UNSET as u8,
    Failure::ABORTED as u8,
    Failure::NO_ANSWER as u8,
    Failure::BAD_STATUS as u8,
    Failure::TOO_LARGE as u8,
    Failure::NOTHING_TO_COPY as u8,
    Failure::NOTHING_TO_RUN as u8,
];

// The word of a command, and spaces up to a width.
pub fn put_command_wide(room: &mut [u8], at: usize, code: usize, width: usize) -> usize
    ensures { Writes (wide width (command_words code)) at room result }
{
    put_word(
        room,
        at,
        &COMMANDS,
        b"vendor|\
          class|\
          image match|\
          set component index|\
          abort|\
          try each|\
          set parameters|\
          override parameters|\
          fetch|\
          copy|\
          run|\
          run sequence|\
          swap|\
          jump|\
          unknown",
        code,
        width,
    )
}

pub fn put_command(room: &mut [u8], at: usize, code: usize) -> usize
    ensures { Writes (command_words code) at room result }
{
    put_command_wide(room, at, code, 0)
}

pub fn put_parameter(room: &mut [u8], at: usize, key: usize) -> usize
    ensures { Writes (parameter_words key) at room result }
{
    put_word(
        room,
        at,
        &PARAMETERS,
        b"coerce|URI|source|digest|size|unknown",
        key,
        0,
    )
}

// The key of section j, in the order of a manifest's sections.
pub fn section_key(j: usize) -> usize
    requires { j < section_count }
    ensures { result ≡ section_key j }
{
    if j == 0 {
        return codes::COMMON;
    }
    j + BEFORE_FETCH
}

pub fn put_section(room: &mut [u8], at: usize, key: usize) -> usize
    ensures { Writes (section_words key) at room result }
{
    put_word(
        room,
        at,
        &SECTIONS,
        b"common|payload fetch|install|validate|load|run|unknown",
        key,
        0,
    )
}

pub fn put_refusal(room: &mut [u8], at: usize, number: usize) -> usize
    ensures { Writes (refusal_words number) at room result }
{
    put_word(
        room,
        at,
        &REFUSALS,
        b"envelope over 4,096 bytes|\
          CBOR rule broken, item past its container's end, or bytes left over|\
          wrong type, key, order, count or length|\
          version not 1|\
          identifier twice|\
          code not listed|\
          parameter not listed|\
          command not allowed there|\
          index or source not below the count|\
          depth over 4|\
          commands past 256, common's counted for each section|\
          signature verdict is no|\
          install while an event is open|\
          install: number not above the device's; boot: not equal|\
          a component has no slot|\
          trace under 2,048 bytes|\
          slot count not 1 to 8, identifier not 1 to 32 bytes or twice, present size over capacity|\
          answers not a multiple of 37 bytes|\
          program longer than the room|\
          program not well formed|\
          unknown",
        number,
        0,
    )
}

pub fn put_end(room: &mut [u8], at: usize, number: usize) -> usize
    ensures { Writes (end_words number) at room result }
{
    put_word(
        room,
        at,
        &ENDS,
        b"finished|\
          condition failed|\
          started|\
          parameter unset|\
          aborted|\
          no answer left|\
          bad status|\
          larger than the capacity|\
          nothing to copy: slot absent|\
          nothing to run: slot absent|\
          unknown",
        number,
        0,
    )
}

// The result of an event.
pub fn put_result(room: &mut [u8], at: usize, number: usize) -> usize
    ensures { Writes (result_words number) at room result }
{
    if number == End::FINISHED {
        return put(room, at, b"success");
    }
    put_end(room, at, number)
}
