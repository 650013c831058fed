// Responses as bytes.
ghost use Rattle.std.specs.Prelude.{◌≡◌, ◌++◌, [], codes, decimal, length, IfOk, OnOk};
ghost use Rattle.md_http.specs.Message.{Html, Refuses, response_of, status_words, allow_line, line, message};

use itoa::Buffer;
use md_base::NoMemory;
use std::alloc::{AllocError, Global};

/// Why a connection isn't answered by a page.
#[derive(Clone, Copy, Debug, PartialEq, Eq)]
pub enum Refusal {
    /// What came is no request.
    BadRequest,
    /// There is no such page.
    NotFound,
    /// The method isn't `GET`.
    MethodNotAllowed,
    /// The head is too long, or has too many fields.
    HeadTooLarge,
}

/// The response that is a page.
pub(crate) fn page_response(alloc: Global, html: &[u8]) -> Result<Vec<u8>, NoMemory>
    ensures { IfOk result (λ bytes. bytes.items ≡ response_of (Html html.now)) }
{
    message(alloc, b"200 OK", b"", b"text/html; charset=utf-8", html)
}

/// The response that tells a refusal.
pub(crate) fn refusal_response(alloc: Global, refusal: Refusal) -> Result<Vec<u8>, NoMemory>
    ensures { IfOk result (λ bytes. bytes.items ≡ response_of (Refuses refusal)) }
{
    let status = status_words(refusal);
    let mut body = Vec::new(alloc);
    body.extend_from_slice(status)?;
    body.push(b'\n')?;
    message(alloc, status, allow_line(refusal), b"text/plain", &body)
}

/// Code and phrase of a refusal.
fn status_words(refusal: Refusal) -> &'static [u8]
    ensures { result.now ≡ status_words refusal }
{
    match refusal {
        Refusal::BadRequest => b"400 Bad Request",
        Refusal::NotFound => b"404 Not Found",
        Refusal::MethodNotAllowed => b"405 Method Not Allowed",
        Refusal::HeadTooLarge => b"431 Request Header Fields Too Large",
    }
}

/// The line that a refusal has behind its status line: of a method that isn't allowed, which one is.
fn allow_line(refusal: Refusal) -> &'static [u8]
    ensures { result.now ≡ allow_line refusal }
{
    match refusal {
        Refusal::MethodNotAllowed => b"Allow: GET\r\n",
        _ => b"",
    }
}

/// A response: its status line, further lines, what the body is and how long, and the body.
fn message(
    alloc: Global,
    status: &[u8],
    further: &[u8],
    kind: &[u8],
    body: &[u8],
) -> Result<Vec<u8>, NoMemory>
    ensures { IfOk result (λ bytes. bytes.items ≡ message status.now further.now kind.now body.now) }
{
    let mut out = Vec::new(alloc);
    add_line(&mut out, b"HTTP/1.1 ", status)?;
    add(&mut out, further)?;
    add_line(&mut out, b"Content-Type: ", kind)?;
    add_body(&mut out, body)?;
    Ok(out)
}

/// Adds the length of a body, the end of the head, and the body.
fn add_body(out: &mut Vec<u8>, body: &[u8]) -> Result<(), AllocError>
    ensures { OnOk result (out.new.items ≡ out.old.items ++ (line (codes "Content-Length: " ++ decimal (length body.now)) ++ (codes "Connection: close\r\n\r\n" ++ body.now))) }
{
    let mut digits = Buffer::new();
    add_line(
        out,
        b"Content-Length: ",
        digits.format(body.len()).as_bytes(),
    )?;
    add(out, b"Connection: close\r\n\r\n")?;
    add(out, body)
}

/// Adds a line of words and a value.
fn add_line(out: &mut Vec<u8>, words: &[u8], value: &[u8]) -> Result<(), AllocError>
    ensures { OnOk result (out.new.items ≡ out.old.items ++ line (words.now ++ value.now)) }
{
    add(out, words)?;
    add(out, value)?;
    add(out, b"\r\n")
}

fn add(out: &mut Vec<u8>, bytes: &[u8]) -> Result<(), AllocError>
    ensures { OnOk result (out.new.items ≡ out.old.items ++ bytes.now) }
{
    out.extend_from_slice(bytes)
}
