// Connections: what they send, and what has to be written to each.
use crate::case::{halves, number_of};
use std::alloc::{AllocError, Global};
use test_cases::unescaped;

/// What a connection sends.
#[derive(Drop)]
pub struct Request {
    pub bytes: Vec<u8>,
    /// The call on the connection that fails, counted from 1; 0 is none.
    pub fails: u64,
}

/// The connections that come over the net.
#[derive(Drop)]
pub struct Connections {
    pub requests: Vec<Request>,
    /// What has to be written to each connection that is served, in order.
    pub responses: Vec<Vec<u8>>,
    /// The port at which the net has to listen in the end; 0 is none.
    pub port: u64,
}

impl Connections {
    /// No connections.
    pub fn new(alloc: Global) -> Connections {
        Connections {
            requests: Vec::new(alloc),
            responses: Vec::new(alloc),
            port: 0,
        }
    }

    /// Takes the value of a key that speaks of connections.
    pub fn add(&mut self, alloc: Global, key: &str, value: &str) -> Result<(), AllocError> {
        match key {
            "request" => self.add_request(unescaped(alloc, value)?),
            "cuts" => self.add_cuts(alloc, value),
            "more" => self.go_on(alloc, value),
            "request-fails" => {
                self.fail(number_of(value));
                Ok(())
            }
            "listens" => {
                self.port = number_of(value);
                Ok(())
            }
            "response" => self.add_response(unescaped(alloc, value)?),
            "responses" => self.add_responses(alloc, value),
            _ => Ok(()),
        }
    }

    fn add_request(&mut self, bytes: Vec<u8>) -> Result<(), AllocError> {
        self.requests.push(Request { bytes, fails: 0 })?;
        Ok(())
    }

    /// A request for each front of these bytes but their whole.
    fn add_cuts(&mut self, alloc: Global, value: &str) -> Result<(), AllocError> {
        let bytes = unescaped(alloc, value)?;
        for size in 0..bytes.len() {
            let front = bytes[..size].to_vec(alloc)?;
            self.add_request(front)?;
        }
        Ok(())
    }

    /// Has the last request go on: a number, a space, and bytes that follow so many times.
    fn go_on(&mut self, alloc: Global, value: &str) -> Result<(), AllocError> {
        let (count, bytes) = halves(value);
        let bytes = unescaped(alloc, bytes)?;
        if let Some(request) = self.requests.last_mut() {
            for _turn in 0..number_of(count) {
                request.bytes.extend_from_slice(bytes.as_slice())?;
            }
        }
        Ok(())
    }

    /// Has a call on the connection of the last request fail.
    fn fail(&mut self, call: u64) {
        if let Some(request) = self.requests.last_mut() {
            request.fails = call;
        }
    }

    fn add_response(&mut self, bytes: Vec<u8>) -> Result<(), AllocError> {
        self.responses.push(bytes)?;
        Ok(())
    }

    /// A number, a space, and the bytes of so many responses.
    fn add_responses(&mut self, alloc: Global, value: &str) -> Result<(), AllocError> {
        let (count, bytes) = halves(value);
        for _turn in 0..number_of(count) {
            self.add_response(unescaped(alloc, bytes)?)?;
        }
        Ok(())
    }
}
