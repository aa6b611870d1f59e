// The words for errors of the system.
ghost use Rattle.text.specs.Text.{Writes};
ghost use Rattle.depot_messages.specs.Errors.{error_words};

use text::position;
use text_pieces::put_labelled;
use text_rows::put_word;

const COUNT: usize = 8;

// The errors that have words, as Linux numbers them.
const ERRORS: [u8; COUNT] = [2, 13, 17, 20, 21, 22, 28, 36];

pub(crate) fn put_error_words(room: &mut [u8], at: usize, n: usize) -> usize
    ensures { Writes (error_words n) at room result }
{
    if position(&ERRORS, n) < COUNT {
        return put_word(
            room,
            at,
            &ERRORS,
            b"no such file or folder|\
              permission denied|\
              there already|\
              a part of the name is no folder|\
              is a folder|\
              no name of a file|\
              no space left|\
              the name is too long|\
              unknown",
            n,
            0,
        );
    }
    put_labelled(room, at, b"error ", n)
}
