//! The pages that are asked for over HTTP.

ghost use Rattle.std.specs.Prelude.{◌≡◌, ◌++◌, [], ◌∷◌, None, OnOk, codes, option_map};
ghost use Rattle.http_server.specs.Response.{IsResponse};
ghost use Rattle.gu_status.specs.Pages.{asks, asks_page, says, health_text, page_text, ready_text};
ghost use Rattle.gu_status.specs.Pages.{status_for, word_in};
ghost use Rattle.gu_status.specs.Pages.{IsPage};
ghost use Rattle.gu_status.specs.Metrics.{metrics_text};
ghost use Rattle.gu_status.specs.Pages.{part_text};

use crate::figures::metrics;
use crate::parts::Part;
use crate::snapshot::{FirmEntries, Snapshot};
use crate::words::{Word, firm_named, word_at};
use bytes::{BufMut, Bytes};
use http::{HeaderValue, Request, StatusCode, header};
use http_server::{Response, Rope, Service};
use itoa::Buffer;
use std::alloc::{AllocError, Global};

/// What a request asks for.
#[derive(Clone, Copy, Debug, PartialEq, Eq)]
pub(crate) enum Asked {
    /// The figures.
    Figures,
    /// Whether connections are taken.
    Readiness,
    /// Whether each part moves.
    Health,
    /// A page that isn't there.
    NoPage,
    /// Something by a method that isn't known here.
    NoMethod,
    /// What an operator says.
    Says(Word),
    /// Something of a firm that isn't there.
    NoFirm,
}

/// What is said at a socket by this path and this query, where there are these firms.
fn said_by(path: &str, query: Option<&str>, firms: &[FirmEntries]) -> Asked
    ensures { result ≡ says path.now (option_map (λ q. q.now) query.entry) firms.now }
{
    if path == "/drain" {
        return Asked::Says(Word::Drain);
    }
    let Some(word) = word_at(path) else {
        return Asked::NoMethod;
    };
    match firm_named(query, firms) {
        Some(firm) => Asked::Says(Word::Of(word, firm)),
        None => Asked::NoFirm,
    }
}

/// The page that a method and a path ask for.
fn page_for(method: &str, path: &str) -> Asked
    ensures { result ≡ asks_page method.now path.now }
{
    if method != "GET" && method != "HEAD" {
        Asked::NoMethod
    } else if path == "/metrics" {
        Asked::Figures
    } else if path == "/ready" {
        Asked::Readiness
    } else if path == "/health" {
        Asked::Health
    } else {
        Asked::NoPage
    }
}

/// What a method, a path and a query ask for, at a socket or a port, where there are these firms.
fn asked_for(
    at_socket: bool,
    method: &str,
    path: &str,
    query: Option<&str>,
    firms: &[FirmEntries],
) -> Asked
    ensures { result ≡ asks at_socket method.now path.now (option_map (λ q. q.now) query.entry)
        firms.now }
{
    if at_socket && method == "POST" {
        said_by(path, query, firms)
    } else {
        page_for(method, path)
    }
}

/// What an operator says, if the server is so far.
fn word_of(asked: &Asked, snapshot: &Snapshot) -> Option<Word>
    ensures { result ≡ word_in asked.now snapshot.now }
{
    match asked {
        Asked::Says(Word::Drain) if !snapshot.is_ready => None,
        Asked::Says(word) => Some(*word),
        _ => None,
    }
}

/// The status of an answer.
fn status_for(asked: &Asked, snapshot: &Snapshot) -> StatusCode
    ensures { result ≡ status_for asked.now snapshot.now }
{
    match asked {
        Asked::Figures => StatusCode::OK,
        Asked::Readiness if snapshot.is_ready => StatusCode::OK,
        Asked::Health if snapshot.stuck.is_none() => StatusCode::OK,
        Asked::Says(_) if word_of(asked, snapshot).is_some() => StatusCode::OK,
        Asked::Readiness | Asked::Health | Asked::Says(_) => StatusCode::SERVICE_UNAVAILABLE,
        Asked::NoPage | Asked::NoFirm => StatusCode::NOT_FOUND,
        Asked::NoMethod => StatusCode::METHOD_NOT_ALLOWED,
    }
}

/// Puts the name of a part into a body.
fn put_part(body: &mut Rope, part: Part) -> Result<(), AllocError>
    ensures { OnOk result (body.new.items ≡ body.old.items ++ part_text part) }
{
    match part {
        Part::Journal => body.put_slice(b"journal"),
        Part::Acceptor => body.put_slice(b"acceptor"),
        Part::Worker(number) => {
            let mut digits = Buffer::new();
            body.put_slice(b"worker ")?;
            body.put_slice(digits.format(number).as_bytes())
        }
        Part::Clock => body.put_slice(b"clock"),
    }
}

/// Puts what is said of the health of the server into a body.
fn put_health(body: &mut Rope, stuck: Option<Part>) -> Result<(), AllocError>
    ensures { OnOk result (body.new.items ≡ body.old.items ++ health_text stuck) }
{
    match stuck {
        None => body.put_slice(b"healthy\n"),
        Some(part) => {
            put_part(body, part)?;
            body.put_slice(b" stands still\n")
        }
    }
}

/// Puts whether connections are taken into a body, and where memory lacks, what isn't done.
fn put_ready(body: &mut Rope, is_ready: bool, lacks_memory: bool) -> Result<(), AllocError>
    ensures { OnOk result (body.new.items ≡ body.old.items ++ ready_text is_ready lacks_memory) }
{
    if !is_ready {
        body.put_slice(b"not ready\n")
    } else if lacks_memory {
        body.put_slice(b"ready\nmemory lacks: no calls of firms are made\n")
    } else {
        body.put_slice(b"ready\n")
    }
}

/// Puts the figures into a body.
fn put_metrics(alloc: Global, body: &mut Rope, snapshot: &Snapshot) -> Result<(), AllocError>
    ensures { OnOk result (body.new.items ≡ body.old.items ++ metrics_text snapshot.now) }
{
    let text = metrics(alloc, snapshot)?;
    body.put_slice(text.as_slice())
}

/// Puts a page into a body.
fn put_page(
    alloc: Global,
    body: &mut Rope,
    asked: &Asked,
    snapshot: &Snapshot,
) -> Result<(), AllocError>
    ensures { OnOk result (body.new.items ≡ body.old.items ++ page_text asked.now snapshot.now) }
{
    match asked {
        Asked::Figures => put_metrics(alloc, body, snapshot),
        Asked::Readiness => put_ready(body, snapshot.is_ready, snapshot.lacks_memory),
        Asked::Health => put_health(body, snapshot.stuck),
        Asked::NoPage => body.put_slice(b"/metrics, /ready and /health are the pages\n"),
        Asked::NoMethod => body.put_slice(b"only GET and HEAD are answered\n"),
        Asked::Says(_) if word_of(asked, snapshot).is_some() => body.put_slice(b"taken\n"),
        Asked::Says(_) => body.put_slice(b"not ready\n"),
        Asked::NoFirm => body.put_slice(b"no such firm\n"),
    }
}

/// Answers requests by a snapshot. Each answer ends its connection, so that the next one is of
/// another snapshot.
#[derive(Drop)]
pub struct Pages<'a> {
    alloc: Global,
    snapshot: &'a Snapshot,
    /// Whether they are asked for at a socket.
    at_socket: bool,
    /// What an operator has said that nobody has heeded.
    word: Option<Word>,
}

impl<'a> Pages<'a> {
    /// The pages of a snapshot, asked for at a socket or at a port.
    pub fn new(alloc: Global, snapshot: &'a Snapshot, at_socket: bool) -> Pages<'a>
        ensures snapshot { result.snapshot.now ≡ snapshot.now }
        ensures place { result.at_socket ≡ at_socket }
        ensures word { result.word ≡ None }
    {
        Pages {
            alloc,
            snapshot,
            at_socket,
            word: None,
        }
    }

    /// What an operator has said since this was asked last.
    pub fn take_word(&mut self) -> Option<Word>
        ensures word { result ≡ self.old.word }
        ensures rest { self.new ≡ record self.old { word = None } }
    {
        let word = self.word;
        self.word = None;
        word
    }
}

impl Service for Pages<'_> {
    ghost use Rattle.std.specs.Prelude.{◌≡◌};
    ghost use Rattle.http_uri.specs.Uri.{uri_path, uri_query};
    ghost use Rattle.gu_status.specs.Pages.{asks, IsPage, word_in};

    ghost answers = { λ old request response new.
        IsPage old.snapshot.now
        (asks old.at_socket request.head.method (uri_path request.head.uri)
        (uri_query request.head.uri) old.snapshot.now.firms.items) response
        × (new ≡ record old {
          word = word_in
              (asks old.at_socket request.head.method (uri_path request.head.uri)
              (uri_query request.head.uri) old.snapshot.now.firms.items) old.snapshot.now;
        }) };

    fn call(
        &mut self,
        request: &Request<Bytes>,
        response: &mut Response,
    ) -> Result<(), AllocError> {
        let uri = request.uri();
        let asked = asked_for(
            self.at_socket,
            request.method().as_str(),
            uri.path(),
            uri.query(),
            &self.snapshot.firms,
        );
        response.status = status_for(&asked, self.snapshot);
        response.add_header(
            header::CONTENT_TYPE,
            HeaderValue::from_static("text/plain; version=0.0.4"),
        )?;
        response.add_header(header::CONNECTION, HeaderValue::from_static("close"))?;
        put_page(self.alloc, &mut response.body, &asked, self.snapshot)?;
        self.word = word_of(&asked, self.snapshot);
        Ok(())
    }
}
