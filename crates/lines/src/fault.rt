ghost use Rattle.std.specs.Prelude.{◌≡◌, Some};
ghost use Rattle.lines.specs.Faults.{number_of, cause_of, plain, placed, layered, numbered, four_numbers};

use std::error::Error;
use std::fmt;

// Why a call is refused. Each case has the number of its refusal.
#[derive(Clone, Copy, Debug, PartialEq, Eq)]
pub enum Cause {
    NotWhole = 10,
    HeadForm = 11,
    HeadContent = 12,
    BodyRule = 13,
    NoSuchVersion = 14,
    ListedSerial = 15,
    UserName = 16,
    SidTooHigh = 17,
    GrantsFull = 18,
    GrantMismatch = 19,
    BufferTooSmall = 20,
    TooManyDeltas = 21,
    NotEmpty = 22,
    NotGranted = 23,
    OtherUser = 24,
    InHand = 25,
    DateOrTime = 26,
    Comment = 27,
    Script = 28,
    FirstText = 29,
    NoSuchLine = 31,
    ReadBufferShort = 32,
    NotALine = 33,
    NoRoom = 34,
    OtherLength = 35,
    NoDraft = 36,
    TextForm = 37,
    BlockForm = 38,
}

impl Cause {
    // The number of the refusal, which no other cause has.
    pub fn number(self) -> u8
        ensures is { result ≡ number_of self }
        ensures back { cause_of result ≡ self }
    {
        // the case's own number, which no `From` reads
        self as u8
    }
}

// What a refusal returns: its cause, and what that names; each of the others is 0. A refusal is four numbers wherever it is
// passed on or printed, so none of them is an Option.
#[derive(Clone, Copy, Debug, PartialEq, Eq)]
pub struct Fault {
    pub cause: Cause,
    pub place: u16,
    pub serial: u8,
    pub layer: u8,
}

impl Fault {
    // A refusal that names nothing beside its cause.
    pub fn plain(cause: Cause) -> Fault
        ensures { result ≡ plain cause }
    {
        Fault {
            cause,
            place: 0,
            serial: 0,
            layer: 0,
        }
    }

    // A refusal that names the place of a line.
    pub fn at(cause: Cause, place: u16) -> Fault
        ensures { result ≡ placed cause place }
    {
        let fault = Fault::plain(cause);
        Fault { place, ..fault }
    }

    // A refusal that names the layer of a kind.
    pub fn in_layer(cause: Cause, layer: u8) -> Fault
        ensures { result ≡ layered cause layer }
    {
        let fault = Fault::plain(cause);
        Fault { layer, ..fault }
    }

    // A refusal that names the serial of a delta.
    pub fn of_serial(cause: Cause, serial: u8) -> Fault
        ensures { result ≡ numbered cause serial }
    {
        let fault = Fault::plain(cause);
        Fault { serial, ..fault }
    }
}

// The four numbers of a refusal: number, place, serial and layer.
impl fmt::Display for Fault {
    ghost output = { λ f. Some (four_numbers f) };

    fn fmt<W: fmt::Write>(&self, f: &mut fmt::Formatter<W>) -> fmt::Result {
        let number = self.cause.number();
        let place = self.place;
        let serial = self.serial;
        let layer = self.layer;
        write!(f, "{number} {place} {serial} {layer}")
    }
}

impl Error for Fault {}
