//! Lines of a journal, from their texts.

ghost use Rattle.std.specs.Prelude.{◌≡◌, [], ◌∷◌, IfOk, IfSome, codes, option_copied};
ghost use Rattle.std.specs.Fmt.{decimal};
ghost use Rattle.scoop_message.specs.Message.{Fits};
ghost use Rattle.scoop_journal.specs.Line.{FitsArrival, arrival_word, reply_word, spaced};
ghost use Rattle.scoop_journal.specs.Reading.{IsTextOf, Tells, following};

use crate::commands::read_command;
use crate::fault::LineFault;
use crate::line::{Arrival, Line};
use crate::words::{blob, cut, frame, handler, last, message, next, number, number_u8, number_u32};
use scoop_lines::is;
use scoop_message::{ClientId, Message};

/// The line of a text, which is given without its newline. A refusal is the fault of the line's first bad part.
pub fn read(text: &[u8]) -> Result<Line<'_>, LineFault>
    ensures { IfOk result (IsTextOf text.now) }
{
    let (name, rest) = cut(text);
    read_named(name, rest)
}

// The line of a first word and the further ones.
fn read_named<'a>(name: &[u8], rest: Option<&'a [u8]>) -> Result<Line<'a>, LineFault>
    ensures { IfOk result (Tells name.now (option_copied rest.entry)) }
{
    if is(name, "hear") {
        return read_hear(rest);
    }
    if is(name, "begin") {
        return read_begin(rest);
    }
    if is(name, "finish") {
        return read_finish(rest);
    }
    if is(name, "turn") {
        return read_turn(rest);
    }
    if is(name, "do") {
        return read_do(rest);
    }
    if is(name, "broke") {
        return read_broke(rest);
    }
    if is(name, "open") {
        return read_open(rest);
    }
    if is(name, "scoop") {
        return read_scoop(rest);
    }
    Err(LineFault::UnknownLine)
}

fn read_begin(rest: Option<&[u8]>) -> Result<Line<'_>, LineFault>
    ensures { IfOk result (Tells (codes "begin") (option_copied rest.entry)) }
{
    Ok(Line::Begin(handler(last(rest)?)?))
}

fn read_finish(rest: Option<&[u8]>) -> Result<Line<'_>, LineFault>
    ensures { IfOk result (Tells (codes "finish") (option_copied rest.entry)) }
{
    Ok(Line::Finish(handler(last(rest)?)?))
}

fn read_broke(rest: Option<&[u8]>) -> Result<Line<'_>, LineFault>
    ensures { IfOk result (Tells (codes "broke") (option_copied rest.entry)) }
{
    Ok(Line::Broke(number(last(rest)?)? as usize))
}

fn read_hear(rest: Option<&[u8]>) -> Result<Line<'_>, LineFault>
    ensures { IfOk result (Tells (codes "hear") (option_copied rest.entry)) }
{
    let (word, rest) = next(rest)?;
    let reply = last(rest)?;
    let heard = match message(word) {
        Ok(heard) => heard,
        Err(fault) => return Err(fault),
    };
    match read_reply(reply) {
        Ok(reply) => Ok(Line::Hear(heard, reply)),
        Err(fault) => Err(fault),
    }
}

fn read_reply(word: &[u8]) -> Result<Option<Message>, LineFault>
    ensures word { IfOk result (λ reply. word.now ≡ reply_word reply) }
    ensures fits { IfOk result (λ reply. IfSome reply Fits) }
{
    if is(word, "none") {
        return Ok(None);
    }
    match message(word) {
        Ok(reply) => Ok(Some(reply)),
        Err(fault) => Err(fault),
    }
}

fn read_turn(rest: Option<&[u8]>) -> Result<Line<'_>, LineFault>
    ensures { IfOk result (Tells (codes "turn") (option_copied rest.entry)) }
{
    match read_arrival(last(rest)?) {
        Ok(arrival) => Ok(Line::Turn(arrival)),
        Err(fault) => Err(fault),
    }
}

fn read_arrival(word: &[u8]) -> Result<Arrival, LineFault>
    ensures word { IfOk result (λ arrival. word.now ≡ arrival_word arrival) }
    ensures fits { IfOk result FitsArrival }
{
    if is(word, "none") {
        return Ok(Arrival::Nothing);
    }
    if is(word, "noframe") {
        return Ok(Arrival::NoFrame);
    }
    if is(word, "fault") {
        return Ok(Arrival::Fault);
    }
    match frame(word) {
        Ok((version, message)) => Ok(Arrival::Frame(version, message)),
        Err(fault) => Err(fault),
    }
}

fn read_do(rest: Option<&[u8]>) -> Result<Line<'_>, LineFault>
    ensures { IfOk result (Tells (codes "do") (option_copied rest.entry)) }
{
    match read_command(rest) {
        Ok(command) => Ok(Line::Do(command)),
        Err(fault) => Err(fault),
    }
}

fn read_open(rest: Option<&[u8]>) -> Result<Line<'_>, LineFault>
    ensures { IfOk result (Tells (codes "open") (option_copied rest.entry)) }
{
    let (number, rest) = next(rest)?;
    let (image, rest) = next(rest)?;
    let pending = last(rest)?;
    Ok(Line::Open(handler(number)?, blob(image)?, blob(pending)?))
}

fn read_scoop(rest: Option<&[u8]>) -> Result<Line<'_>, LineFault>
    ensures { IfOk result (Tells (codes "scoop") (option_copied rest.entry)) }
{
    let (name, rest) = next(rest)?;
    if !is(name, "journal") {
        return Err(LineFault::UnknownLine);
    }
    let (version, rest) = next(rest)?;
    if !is(version, "1") {
        return Err(LineFault::UnknownVersion);
    }
    let (party, rest) = next(rest)?;
    if is(party, "node") {
        return Ok(Line::NodeLife(number_u32(last(rest)?)?));
    }
    if is(party, "client") {
        let (client, inc, batch) = read_client(rest)?;
        return Ok(Line::ClientLife(client, inc, batch));
    }
    Err(LineFault::UnknownLine)
}

fn read_client(rest: Option<&[u8]>) -> Result<(ClientId, u32, u8), LineFault>
    ensures { IfOk result (λ x. following (option_copied rest.entry) ≡ spaced (decimal x.0.0 ∷ decimal x.1 ∷ decimal x.2 ∷ [])) }
{
    let (client, rest) = next(rest)?;
    let (inc, rest) = next(rest)?;
    let batch = last(rest)?;
    Ok((
        ClientId(number_u32(client)?),
        number_u32(inc)?,
        number_u8(batch)?,
    ))
}
