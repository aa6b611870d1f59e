// What the depot tool says of itself.
ghost use Rattle.text.specs.Text.{Writes};
ghost use Rattle.depot_messages.specs.Help.{version_text, help_text};

use text::put;

#[tactic(auto, unfolding(crate::specs::Help::version_text))]
pub(crate) fn put_version(room: &mut [u8], at: usize) -> usize
    ensures { Writes version_text at room result }
{
    put(room, at, b"depot 0.7.0\n")
}

#[tactic(auto, unfolding(crate::specs::Help::help_text))]
pub(crate) fn put_help(room: &mut [u8], at: usize) -> usize
    ensures { Writes help_text at room result }
{
    put(
        room,
        at,
        b"usage: depot check FILE\n\
          \x20      depot show FILE\n\
          \x20      depot newer FILE FILE\n\
          \x20      depot translate install|boot FILE OUT\n\
          \x20      depot list PROGRAM\n\
          \x20      depot run install|boot FILE DEVICE [--then OUT]\n\
          \x20      depot run-program PROGRAM DEVICE [--then OUT]\n\
          \x20      depot batch FILE\n\
          \x20      depot help\n\
          \x20      depot --version\n\
          \n\
          FILE is an envelope, PROGRAM a program, DEVICE a device description; - is standard input.\n\
          OUT is a new file, never written over; - is standard output, and the report goes to standard error.\n\
          --then writes the device and slots after a run as a device description.\n\
          A batch has a command on each line, without the word depot.\n\
          With --status before the command the last line on standard error is its status:\n\
          0 done, 1 refused or a run that did not end well, 2 usage or file.\n",
    )
}
