//! A request and its response, as bytes.

ghost use Rattle.std.specs.Prelude.{◌≡◌, ◌≤◌, [], ◌++◌, length, vec_len, OnOk, OnErr, IfOk};
ghost use Rattle.http1.specs.Client.{new_client};
ghost use Rattle.scoop_etcd_gateway.specs.Post.{post_text, IsDataWithin, piece_of, status_after, step_after, last_step};
ghost use Rattle.scoop_etcd_gateway.specs.declared.exchange.TheConstants.{LIMITS, MAX_BODY_LEN};

use bytes::{Buf, BytesMut};
use http1::{BodySize, Client, Event, Header, Limits, ReadError, WriteError};
use httparse::spans::{EMPTY_HEADER_SPAN, ResponseSpans};
use std::alloc::{AllocError, Global};
use thiserror::Error;

/// Bytes of a response's body, at most.
pub const MAX_BODY_LEN: usize = 4 << 20;

// The fields of a response, at most.
const MAX_HEADERS: usize = 64;

// Bytes of the parts of a response, at most.
const LIMITS: Limits = Limits {
    max_head_len: 16_384,
    max_extensions_len: 1_024,
    max_trailers_len: 16_384,
};

/// Why an exchange has no response.
#[derive(Clone, Copy, Debug, PartialEq, Eq, Error)]
pub enum HttpFault {
    /// The request can't be written: its host or path has a byte that HTTP doesn't allow there.
    #[error("{0}")]
    Request(WriteError),
    /// The bytes that came are no response of HTTP/1, or one of its parts is too long.
    #[error("{0}")]
    Response(ReadError),
    /// The body is longer than [`MAX_BODY_LEN`].
    #[error("the body of the response is too long")]
    BodyTooLong,
    /// The peer asks for another protocol.
    #[error("the peer asks for another protocol")]
    OtherProtocol,
    /// The peer closed the connection before the end of the response.
    #[error("the response is cut off")]
    CutOff,
    /// A growth of memory was refused.
    #[error("out of memory")]
    OutOfMemory,
}

impl From<AllocError> for HttpFault {
    fn from(_: AllocError) -> HttpFault {
        HttpFault::OutOfMemory
    }
}

/// A whole response.
#[derive(Drop)]
pub struct Response {
    /// The status, as 200.
    pub status: u16,
    /// The body, without its framing.
    pub body: Vec<u8>,
    /// Whether the connection takes another request.
    pub keeps_open: bool,
}

/// A request that was written, and the part of its response that has come.
#[derive(Drop)]
pub struct Exchange {
    client: Client,
    unread: BytesMut,
    status: u16,
    body: Vec<u8>,
    ghost bounded: { vec_len body ≤ MAX_BODY_LEN },
}

// The step after an event: another event, more bytes, or the end of the response.
enum Step {
    Again,
    NeedMore,
    Whole,
}

// Writes a request that keeps the connection open.
fn write_post(
    client: &mut Client,
    out: &mut Vec<u8>,
    host: &[u8],
    path: &[u8],
    body: &[u8],
) -> Result<(), WriteError>
    requires { client.old ≡ new_client LIMITS }
    ensures { OnOk result (out.new.items ≡ out.old.items ++ post_text LIMITS host.now path.now body.now) }
{
    let headers = [
        Header {
            name: b"host",
            value: host,
        },
        Header {
            name: b"content-type",
            value: b"application/json",
        },
    ];
    let size = BodySize::Known(body.len() as u64);
    client.write_request(out, b"POST", path, &headers, size)?;
    client.write_data(out, body)?;
    client.write_end(out, &[])
}

// The status of a head, or else the one before.
fn status_after(status: u16, event: Event<ResponseSpans>) -> u16
    ensures { result ≡ status_after status event }
{
    match event {
        Event::Head(head) => head.code,
        _ => status,
    }
}

// The part of the body that came with an event.
fn piece_of(event: Event<ResponseSpans>, input: &[u8]) -> &[u8]
    requires { IsDataWithin (length input.now) event }
    ensures { result.now ≡ piece_of event input.now }
{
    match event {
        Event::Data(span) => span.of(input),
        _ => &[],
    }
}

// Adds a part to the body.
fn add(body: &mut Vec<u8>, piece: &[u8]) -> Result<(), HttpFault>
    requires { vec_len body.old ≤ MAX_BODY_LEN }
    ensures bounded { vec_len body.new ≤ MAX_BODY_LEN }
    ensures ok { OnOk result (body.new.items ≡ body.old.items ++ piece.now) }
    ensures err { OnErr result (body.new.items ≡ body.old.items) }
{
    if piece.len() > MAX_BODY_LEN - body.len() {
        return Err(HttpFault::BodyTooLong);
    }
    body.extend_from_slice(piece)?;
    Ok(())
}

fn step_after(event: Event<ResponseSpans>) -> Result<Step, HttpFault>
    ensures { result ≡ step_after event }
{
    match event {
        Event::Head(_) | Event::Informational(_) | Event::Data(_) => Ok(Step::Again),
        Event::NeedMore => Ok(Step::NeedMore),
        Event::End(_) => Ok(Step::Whole),
        Event::Paused | Event::Upgraded | Event::Closed => Err(HttpFault::OtherProtocol),
    }
}

impl Exchange {
    ghost use Rattle.scoop_etcd_gateway.specs.declared.exchange.Exchange.{Exchange};
    ghost use Rattle.scoop_etcd_gateway.specs.Reading.{Comes, Steps, Runs};

    /// Writes a request with a JSON body, and waits for its response. `Request` and `OutOfMemory` are its faults.
    pub fn begin(
        alloc: Global,
        out: &mut Vec<u8>,
        host: &[u8],
        path: &[u8],
        body: &[u8],
    ) -> Result<Exchange, HttpFault>
        ensures sent { OnOk result (out.new.items ≡ out.old.items ++ post_text LIMITS host.now path.now body.now) }
        ensures nothing { IfOk result (λ e. (e.unread.items ≡ []) × (e.body.items ≡ [])) }
    {
        let mut client = Client::new(LIMITS);
        match write_post(&mut client, out, host, path, body) {
            Ok(()) => Ok(Exchange {
                client,
                unread: BytesMut::new(alloc),
                status: 0,
                body: Vec::new(alloc),
            }),
            Err(WriteError::OutOfMemory) => Err(HttpFault::OutOfMemory),
            Err(fault) => Err(HttpFault::Request(fault)),
        }
    }

    // Reads the next event.
    fn step(&mut self) -> Result<Step, HttpFault>
        ensures { IfOk result (Steps self.old self.new) }
    {
        let mut headers = [EMPTY_HEADER_SPAN; MAX_HEADERS];
        let input = self.unread.as_slice();
        let read = match self.client.read(input, &mut headers) {
            Ok(read) => read,
            Err(fault) => return Err(HttpFault::Response(fault)),
        };
        self.status = status_after(self.status, read.event);
        add(&mut self.body, piece_of(read.event, input))?;
        self.unread.advance(read.consumed);
        step_after(read.event)
    }

    /// Takes the next bytes from the peer. Returns whether the response is whole. An exchange with a fault is of no more use.
    pub fn take(&mut self, piece: &[u8]) -> Result<bool, HttpFault>
        ensures { IfOk result (λ whole. (start : Exchange) × (now : Exchange) × Comes self.old piece.now start × Runs start now × Steps now self.new (last_step whole)) }
    {
        self.unread.extend_from_slice(piece)?;
        for _ in 0..u64::MAX {
            match self.step()? {
                Step::Again => {}
                Step::NeedMore => return Ok(false),
                Step::Whole => return Ok(true),
            }
        }
        Err(HttpFault::BodyTooLong)
    }

    /// Tells that the peer closed its side. `CutOff` means that the response isn't whole.
    pub fn close(&mut self) -> Result<(), HttpFault> {
        match self.client.read_eof() {
            Ok(Event::End(_)) => Ok(()),
            _ => Err(HttpFault::CutOff),
        }
    }

    /// The response, once it is whole.
    pub fn into_response(self) -> Response
        ensures { (result.status ≡ self.status) × (result.body.items ≡ self.body.items) }
    {
        Response {
            status: self.status,
            keeps_open: self.client.is_idle() && self.unread.is_empty(),
            body: self.body,
        }
    }
}
