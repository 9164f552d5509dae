//! The pages of a node's status, and which request gets which.

ghost use Rattle.std.specs.Prelude.{◌≡◌};
ghost use Rattle.scoop_status_server.specs.Routes.{page_at};

use crate::json::print_json;
use bytes::{BufMut, Bytes};
use http::{HeaderName, HeaderValue, Method, Request, StatusCode, header};
use http_server::{Response, Service};
use scoop_status::{About, NodeView, gather, print_metrics, print_page};
use scoop_watch::Watch;
use std::alloc::{AllocError, Global};
use std::sync::Wait;
use std::time::Clock;

/// The page that a request asks for, or why it gets none.
#[derive(Clone, Copy, Debug, PartialEq, Eq)]
pub enum Page {
    /// The page for people, `/`.
    People,
    /// `/status.json`
    Json,
    /// `/metrics`
    Metrics,
    /// `/healthz`
    Health,
    /// There is no such page.
    Missing,
    /// The method isn't GET or HEAD.
    Refused,
}

/// The page of a path, by whether the method only reads.
pub fn page_of(reads: bool, path: &str) -> Page
    ensures { result ≡ page_at reads path.now }
{
    if !reads {
        return Page::Refused;
    }
    match path {
        "/" => Page::People,
        "/status.json" => Page::Json,
        "/metrics" => Page::Metrics,
        "/healthz" => Page::Health,
        _ => Page::Missing,
    }
}

/// Answers requests with what its watch shows at that moment. It has no way to change the node.
#[derive(Clone, Copy)]
pub struct Pages<'a, R> {
    pub rt: &'a R,
    pub alloc: Global,
    pub watch: &'a Watch,
    pub about: &'a About<'a>,
}

impl<'a, R: Wait + Clock> Service for Pages<'a, R> {
    ghost answers = { λ old request response new. Unit {0} };

    fn call(
        &mut self,
        request: &Request<Bytes>,
        response: &mut Response,
    ) -> Result<(), AllocError> {
        let method = request.method();
        let reads = *method == Method::GET || *method == Method::HEAD;
        let page = page_of(reads, request.uri().path());
        add_headers(response, page)?;
        if let Page::Missing = page {
            response.status = StatusCode::NOT_FOUND;
            return response.body.put_slice(b"there is no such page\n");
        }
        if let Page::Refused = page {
            response.status = StatusCode::METHOD_NOT_ALLOWED;
            return response.body.put_slice(b"only GET and HEAD\n");
        }
        let Ok(view) = gather(self.rt, self.alloc, self.watch, self.about) else {
            return Err(AllocError);
        };
        fill(self.alloc, page, &view, response)
    }
}

// Fills the body of the page from the view.
fn fill(
    alloc: Global,
    page: Page,
    view: &NodeView<'_>,
    response: &mut Response,
) -> Result<(), AllocError> {
    let mut text = Vec::new(alloc);
    let written = match page {
        Page::People => print_page(view, &mut text).is_ok(),
        Page::Metrics => print_metrics(view, &mut text).is_ok(),
        Page::Json => match print_json(alloc, view) {
            Some(json) => {
                text = json;
                true
            }
            None => false,
        },
        Page::Health | Page::Missing | Page::Refused => {
            response.status = health_status(view);
            text.extend_from_slice(health_text(view).as_bytes()).is_ok()
        }
    };
    if !written {
        return Err(AllocError);
    }
    response.body.put_slice(text.as_slice())
}

// Whether the node serves, as a status.
fn health_status(view: &NodeView<'_>) -> StatusCode {
    if view.open && view.counts.tally.refused_puts == 0 {
        StatusCode::OK
    } else {
        StatusCode::SERVICE_UNAVAILABLE
    }
}

// Whether the node serves, as a line.
fn health_text(view: &NodeView<'_>) -> &'static str {
    if view.counts.tally.refused_puts > 0 {
        "the store refused a state or a commit\n"
    } else if view.open {
        "ok\n"
    } else {
        "not open\n"
    }
}

// The headers of a page. A connection has one answer.
fn add_headers(response: &mut Response, page: Page) -> Result<(), AllocError> {
    response.add_header(header::CONTENT_TYPE, content_type(page))?;
    response.add_header(header::CONNECTION, HeaderValue::from_static("close"))?;
    response.add_header(header::CACHE_CONTROL, HeaderValue::from_static("no-store"))?;
    response.add_header(
        header::X_CONTENT_TYPE_OPTIONS,
        HeaderValue::from_static("nosniff"),
    )?;
    response.add_header(
        header::CONTENT_SECURITY_POLICY,
        HeaderValue::from_static("default-src 'none'; style-src 'unsafe-inline'"),
    )?;
    match page {
        Page::Refused => {
            response.add_header(header::ALLOW, HeaderValue::from_static("GET, HEAD"))
        }
        _ => Ok(()),
    }
}

fn content_type(page: Page) -> HeaderValue {
    match page {
        Page::People => HeaderValue::from_static("text/html; charset=utf-8"),
        Page::Json => HeaderValue::from_static("application/json"),
        Page::Metrics => HeaderValue::from_static("text/plain; version=0.0.4; charset=utf-8"),
        Page::Health | Page::Missing | Page::Refused => {
            HeaderValue::from_static("text/plain; charset=utf-8")
        }
    }
}
