// What is said of a bad line; `Display` says it too.
ghost use Rattle.std.specs.Prelude.{◌≡◌};
ghost use Rattle.days.specs.Messages.{message_of};

use crate::fault::Fault;

pub fn message(fault: Fault) -> &'static str
    ensures { result.now ≡ message_of fault }
{
    match fault {
        Fault::Memory => "no memory is left",
        Fault::UnknownWord => "look, keys, from, gone or show is wanted",
        Fault::BadNumber => "a number of one to ten digits is wanted",
        Fault::BadSize => "a screen has 1 to 200 columns and 2 to 60 rows",
        Fault::BadText => "a text between quotes is wanted, with the escapes of a day",
        Fault::TooLong => "at most 4096 bytes come at once",
    }
}
