//! The printed line of an event of a world.

ghost use Rattle.std.specs.Prelude.{◌≡◌, ◌∷◌, ◌++◌, [], codes, OnOk};
ghost use Rattle.std.specs.Fmt.{decimal};
ghost use Rattle.std.specs.Option.{option_copied};
ghost use Rattle.std.specs.Io.KnownBytes.{Appends};
ghost use Rattle.scoop_frame.specs.Text.{error_text};
ghost use Rattle.scoop_message.specs.Text.{block_text, answer_text};
ghost use Rattle.scoop_handler.specs.Text.{reason_text, note_text as handler_note_text};
ghost use Rattle.scoop_demo.specs.NoteText.{note_text, client_note_text, sent_text, ran_text, ran_answer_text, kind_text};

use arrayvec::{ArrayVec, CapacityError};
use itoa::Buffer;
use scoop_client::ClientNote;
use scoop_frame::FrameError;
use scoop_handler::{Note, Ran, Reason};
use scoop_message::{Answer, Block, HandlerId, Message};
use scoop_world::WorldNote;
use std::io;
use std::io::{ErrorKind, Write};

/// Bytes of a line's buffer: more than the line of any note has.
const LINE_ROOM: usize = 96;

/// A line, or a piece of one, before it is written.
pub type LineText = ArrayVec<u8, LINE_ROOM>;

/// Writes the line of an event's note, in one write. A sent message is named by its kind.
pub fn print_note<W: Write>(
    note: &WorldNote,
    sent: Option<&Message>,
    writer: &mut W,
) -> io::Result<()>
    ensures { OnOk result (Appends (W.contents writer.old) (W.contents writer.new) (note_text note.now (option_copied sent.entry) ++ 10 ∷ [])) }
{
    let mut line = ArrayVec::new();
    match put_line(&mut line, note, sent) {
        Ok(()) => writer.write_all(line.as_slice()),
        // No line is this long.
        Err(_) => Err(io::Error::from(ErrorKind::WriteZero)),
    }
}

// Appends the line of a note.
fn put_line(
    line: &mut LineText,
    note: &WorldNote,
    sent: Option<&Message>,
) -> Result<(), CapacityError>
    ensures { OnOk result (line.new.items ≡ line.old.items ++ note_text note.now (option_copied sent.entry) ++ 10 ∷ []) }
{
    put_note(line, note, sent)?;
    put(line, "\n")
}

// Appends a note.
fn put_note(
    line: &mut LineText,
    note: &WorldNote,
    sent: Option<&Message>,
) -> Result<(), CapacityError>
    ensures { OnOk result (line.new.items ≡ line.old.items ++ note_text note.now (option_copied sent.entry)) }
{
    match note {
        WorldNote::Done => put(line, "done"),
        WorldNote::Silent => put(line, "silent"),
        WorldNote::Sent(place) => put_sent(line, *place, sent),
        WorldNote::Handler(note, None) => put_handler_note(line, *note),
        WorldNote::Handler(note, Some(place)) => put_answered(line, *note, *place),
        WorldNote::Client(note) => put_client_note(line, note),
        WorldNote::Began(block, number) => put_began(line, *block, *number),
        WorldNote::Ran(ran) => put_ran(line, ran),
        WorldNote::Restarted(inc) => put_named(line, "restarted ", *inc),
        WorldNote::Reopened => put(line, "reopened"),
    }
}

/// Appends a text. The error is `CapacityError` if there is no room.
pub fn put(line: &mut LineText, text: &str) -> Result<(), CapacityError>
    ensures { OnOk result (line.new.items ≡ line.old.items ++ text.now) }
{
    line.try_extend_from_slice(text.as_bytes())
}

// Appends a number in decimal digits.
fn put_number(line: &mut LineText, number: u64) -> Result<(), CapacityError>
    ensures { OnOk result (line.new.items ≡ line.old.items ++ decimal number) }
{
    let mut digits = Buffer::new();
    put(line, digits.format(number))
}

// Appends a text and a number.
fn put_named(line: &mut LineText, name: &str, number: u32) -> Result<(), CapacityError>
    ensures { OnOk result (line.new.items ≡ line.old.items ++ name.now ++ decimal number) }
{
    put(line, name)?;
    put_number(line, u64::from(number))
}

// Appends a block.
fn put_block(line: &mut LineText, block: Block) -> Result<(), CapacityError>
    ensures { OnOk result (line.new.items ≡ line.old.items ++ block_text block) }
{
    put_number(line, u64::from(block.client.0))?;
    put_named(line, ".", block.inc)?;
    put_named(line, ".", block.num)
}

// Appends an object's answer.
fn put_answer(line: &mut LineText, answer: Answer) -> Result<(), CapacityError>
    ensures { OnOk result (line.new.items ≡ line.old.items ++ answer_text answer) }
{
    match answer {
        Answer::Refused => put(line, "refused"),
        Answer::Value(value) => put_number(line, value),
    }
}

// Appends the place and the kind of a sent message.
fn put_sent(line: &mut LineText, place: usize, sent: Option<&Message>) -> Result<(), CapacityError>
    ensures { OnOk result (line.new.items ≡ line.old.items ++ sent_text place (option_copied sent.entry)) }
{
    put(line, "sent ")?;
    put_number(line, place as u64)?;
    match sent {
        Some(message) => {
            put(line, " ")?;
            put(line, kind_name(message))
        }
        None => Ok(()),
    }
}

// The name of a message's kind.
pub(crate) fn kind_name(message: &Message) -> &'static str
    ensures { result.now ≡ kind_text message.now }
{
    match message {
        Message::Hello(..) => "Hello",
        Message::Welcome(..) => "Welcome",
        Message::Lock(..) => "Lock",
        Message::Locked(..) => "Locked",
        Message::Busy(..) => "Busy",
        Message::Open(..) => "Open",
        Message::Opened(..) => "Opened",
        Message::Unlock(..) => "Unlock",
        Message::Unlocked(..) => "Unlocked",
        Message::Log(..) => "Log",
        Message::Logged(..) => "Logged",
        Message::Answer(..) => "Answer",
    }
}

/// Writes the line of a message without a reply, in one write: `none` and the handler's note.
pub(crate) fn print_silent<W: Write>(note: Note, writer: &mut W) -> io::Result<()>
    ensures { OnOk result (Appends (W.contents writer.old) (W.contents writer.new) (codes "none " ++ handler_note_text note ++ 10 ∷ [])) }
{
    let mut line = ArrayVec::new();
    match put_silent(&mut line, note) {
        Ok(()) => writer.write_all(line.as_slice()),
        // No line is this long.
        Err(_) => Err(io::Error::from(ErrorKind::WriteZero)),
    }
}

// Appends the line of a message without a reply.
fn put_silent(line: &mut LineText, note: Note) -> Result<(), CapacityError>
    ensures { OnOk result (line.new.items ≡ line.old.items ++ codes "none " ++ handler_note_text note ++ 10 ∷ []) }
{
    put(line, "none ")?;
    put_handler_note(line, note)?;
    put(line, "\n")
}

/// Writes the line of a datagram that is no frame, in one write: `refused` and why.
pub(crate) fn print_refused<W: Write>(error: FrameError, writer: &mut W) -> io::Result<()>
    ensures { OnOk result (Appends (W.contents writer.old) (W.contents writer.new) (codes "refused " ++ error_text error ++ 10 ∷ [])) }
{
    let mut line = ArrayVec::new();
    match put_refused(&mut line, error) {
        Ok(()) => writer.write_all(line.as_slice()),
        // No line is this long.
        Err(_) => Err(io::Error::from(ErrorKind::WriteZero)),
    }
}

// Appends the line of a datagram that is no frame.
fn put_refused(line: &mut LineText, error: FrameError) -> Result<(), CapacityError>
    ensures { OnOk result (line.new.items ≡ line.old.items ++ codes "refused " ++ error_text error ++ 10 ∷ []) }
{
    put(line, "refused ")?;
    put_frame_error(line, error)?;
    put(line, "\n")
}

// Appends a name and the number that was met.
fn put_met(line: &mut LineText, name: &str, met: u8) -> Result<(), CapacityError>
    ensures { OnOk result (line.new.items ≡ line.old.items ++ (name.now ++ decimal met)) }
{
    put_named(line, name, u32::from(met))
}

// Appends why a datagram is no frame.
fn put_frame_error(line: &mut LineText, error: FrameError) -> Result<(), CapacityError>
    ensures { OnOk result (line.new.items ≡ line.old.items ++ error_text error) }
{
    match error {
        FrameError::Short => put(line, "Short"),
        FrameError::BadMagic => put(line, "BadMagic"),
        FrameError::BadVersion(version) => put_met(line, "BadVersion ", version),
        FrameError::BadKind(kind) => put_met(line, "BadKind ", kind),
        FrameError::LengthWrong => put(line, "LengthWrong"),
        FrameError::FieldNotZero => put(line, "FieldNotZero"),
        FrameError::FieldZero => put(line, "FieldZero"),
        FrameError::BadBody => put(line, "BadBody"),
    }
}

// Appends a handler's note on a message.
fn put_handler_note(line: &mut LineText, note: Note) -> Result<(), CapacityError>
    ensures { OnOk result (line.new.items ≡ line.old.items ++ handler_note_text note) }
{
    match note {
        Note::Greeted => put(line, "Greeted"),
        Note::Granted => put(line, "Granted"),
        Note::Held => put(line, "Held"),
        Note::Opened(_) => put(line, "Opened"),
        Note::Freed => put(line, "Freed"),
        Note::Took(number) => put_named(line, "Took ", number),
        Note::Known => put(line, "Known"),
        Note::Dropped(why) => {
            put(line, "Dropped ")?;
            put(line, reason_name(why))
        }
    }
}

// The name of a reason.
fn reason_name(why: Reason) -> &'static str
    ensures { result.now ≡ reason_text why }
{
    match why {
        Reason::NotForHandlers => "NotForHandlers",
        Reason::WrongHandler => "WrongHandler",
        Reason::TooManyClients => "TooManyClients",
        Reason::Stale => "Stale",
        Reason::Ungreeted => "Ungreeted",
        Reason::NotHolder => "NotHolder",
        Reason::QueueFull => "QueueFull",
        Reason::NotOpen => "NotOpen",
        Reason::Gap => "Gap",
        Reason::PendingFull => "PendingFull",
    }
}

// Appends a handler's note on a message, and the place of its reply.
fn put_answered(line: &mut LineText, note: Note, place: usize) -> Result<(), CapacityError>
    ensures { OnOk result (line.new.items ≡ line.old.items ++ handler_note_text note ++ codes " sent " ++ decimal place) }
{
    put_handler_note(line, note)?;
    put(line, " sent ")?;
    put_number(line, place as u64)
}

// Appends a client's note on a message.
fn put_client_note(line: &mut LineText, note: &ClientNote) -> Result<(), CapacityError>
    ensures { OnOk result (line.new.items ≡ line.old.items ++ client_note_text note.now) }
{
    match note {
        ClientNote::Welcomed(handler) => put_named(line, "Welcomed ", handler.0),
        ClientNote::Locked(handler) => put_named(line, "Locked ", handler.0),
        ClientNote::Busy(handler) => put_named(line, "Busy ", handler.0),
        ClientNote::Opened(handler) => put_named(line, "Opened ", handler.0),
        ClientNote::Unlocked(handler) => put_named(line, "Unlocked ", handler.0),
        ClientNote::Acknowledged(handler, count) => {
            put_named(line, "Acknowledged ", handler.0)?;
            put_named(line, " ", *count)
        }
        ClientNote::Accepted(handler, number, answer) => {
            put_accepted(line, *handler, *number, *answer)
        }
        ClientNote::Ignored => put(line, "Ignored"),
    }
}

// Appends an answer that a client accepts.
fn put_accepted(
    line: &mut LineText,
    handler: HandlerId,
    number: u32,
    answer: Answer,
) -> Result<(), CapacityError>
    ensures { OnOk result (line.new.items ≡ line.old.items ++ client_note_text (ClientNote.Accepted handler number answer)) }
{
    put_named(line, "Accepted ", handler.0)?;
    put_named(line, " ", number)?;
    put(line, " ")?;
    put_answer(line, answer)
}

// Appends the entry that began.
fn put_began(line: &mut LineText, block: Block, number: u32) -> Result<(), CapacityError>
    ensures { OnOk result (line.new.items ≡ line.old.items ++ codes "began " ++ block_text block ++ codes " " ++ decimal number) }
{
    put(line, "began ")?;
    put_block(line, block)?;
    put_named(line, " ", number)
}

// Appends an entry that has run.
fn put_ran(line: &mut LineText, ran: &Ran) -> Result<(), CapacityError>
    ensures { OnOk result (line.new.items ≡ line.old.items ++ ran_text ran.now) }
{
    put(line, "ran ")?;
    put_block(line, ran.block)?;
    put_named(line, " ", ran.number)?;
    put(line, " ")?;
    put_ran_answer(line, ran.answer)
}

// Appends the answer of an entry. An End has none.
fn put_ran_answer(line: &mut LineText, answer: Option<Answer>) -> Result<(), CapacityError>
    ensures { OnOk result (line.new.items ≡ line.old.items ++ ran_answer_text answer) }
{
    match answer {
        Some(answer) => put_answer(line, answer),
        None => put(line, "end"),
    }
}
