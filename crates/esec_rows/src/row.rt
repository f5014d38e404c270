//! A row: the bytes that come in, and what is due.
use crate::draws::draws;
use crate::escapes::unescaped;
use crate::fault::Fault;
use crate::http::{request, response};
use crate::words::{cut, number, numbers};
use es_edge::Draw;
use std::alloc::Global;

/// What the bytes of a row are.
#[derive(Clone, Copy, PartialEq, Eq)]
pub enum Kind {
    /// Requests, which are answered.
    Requests,
    /// A schedule of the steps of many actors.
    Schedule,
}

/// A row, as far as its lines were read.
#[derive(Drop)]
pub struct Row<'a> {
    pub kind: Kind,
    pub name: &'a [u8],
    /// The first line that isn't read.
    pub unread: Option<&'a [u8]>,
    /// The bytes that come in.
    pub asked: Vec<u8>,
    /// The bytes that are due.
    pub due: Vec<u8>,
    /// Fields of the next request that is asked, each with its line end.
    fields: Vec<u8>,
    /// The field `allow` of the next response that is due, or nothing.
    allow: &'a [u8],
    /// The last request that was asked, and the last response without `connection: close`, as their lines say them.
    last_asked: &'a [u8],
    last_got: &'a [u8],
    /// How the run ends, as the line behind the word `end` or `done` says it.
    pub end: &'a [u8],
    /// How many bytes of a schedule have to be read.
    pub read: Option<u64>,
    /// How many looks have to hit.
    pub hits: Option<u64>,
    /// The receipts that are due, each as the line behind the word `receipt` says it, with a line feed.
    pub receipts: Vec<u8>,
    /// As many bytes as a read gives at the most; none stands for 1, 7 and 65,536.
    pub pieces: Vec<u64>,
    /// The reads that fail, counted from 1.
    pub failing_reads: Vec<u64>,
    /// The writes that fail, counted from 1.
    pub failing_writes: Vec<u64>,
    /// As many bytes as are taken in all.
    pub room: u64,
    /// The moment at the first reading of the clock, in milliseconds since 1970. Each reading is one later.
    pub moment: u64,
    /// As many entries as the journal may have.
    pub journal: u64,
    /// As many composed roles as are cached.
    pub role_cache: u64,
    /// What is drawn, one after the other; behind them the chance fails. None stands for 64 times sixteen zero bytes.
    pub draws: Vec<Draw>,
}

impl<'a> Row<'a> {
    /// A row without lines.
    pub fn new(alloc: Global, kind: Kind, name: &'a [u8]) -> Row<'a> {
        Row {
            kind,
            name,
            unread: None,
            asked: Vec::new(alloc),
            due: Vec::new(alloc),
            fields: Vec::new(alloc),
            allow: b"".as_slice(),
            last_asked: b"".as_slice(),
            last_got: b"".as_slice(),
            end: b"".as_slice(),
            read: None,
            hits: None,
            receipts: Vec::new(alloc),
            pieces: Vec::new(alloc),
            failing_reads: Vec::new(alloc),
            failing_writes: Vec::new(alloc),
            room: 4194304,
            moment: 7,
            journal: 200000,
            role_cache: 512,
            draws: Vec::new(alloc),
        }
    }

    /// Reads one line, or keeps it as the one that isn't read. Empty lines and those that begin with `#` say nothing.
    pub fn read(&mut self, alloc: Global, line: &'a [u8]) {
        if line.is_empty() || line.first() == Some(&b'#') {
            return;
        }
        if self.take(alloc, line).is_err() && self.unread.is_none() {
            self.unread = Some(line);
        }
    }

    fn take(&mut self, alloc: Global, line: &'a [u8]) -> Result<(), Fault> {
        let (word, rest) = cut(line);
        match self.kind {
            Kind::Requests => self.take_request(alloc, word, rest),
            Kind::Schedule => self.take_schedule(alloc, word, rest),
        }
    }

    /// A line of a row of requests.
    fn take_request(&mut self, alloc: Global, word: &[u8], rest: &'a [u8]) -> Result<(), Fault> {
        match word {
            b"ask" => self.ask(alloc, rest)?,
            b"with" => self.with(alloc, rest)?,
            b"raw" => self.asked.extend_from_slice(&unescaped(alloc, rest)?)?,
            b"got" => self.got(alloc, rest)?,
            b"last" => self.last(alloc, rest)?,
            b"again" => self.again(alloc, number(rest)?)?,
            b"allow" => self.allow = rest,
            b"out" => self.due.extend_from_slice(&unescaped(alloc, rest)?)?,
            b"end" => self.end = rest,
            b"hits" => self.hits = Some(number(rest)?),
            b"receipt" => self.receipt(rest)?,
            _ => self.option(alloc, word, rest)?,
        }
        Ok(())
    }

    /// A line of a row that is a schedule.
    fn take_schedule(&mut self, alloc: Global, word: &[u8], rest: &'a [u8]) -> Result<(), Fault> {
        match word {
            b"take" => put_line(&mut self.asked, &unescaped(alloc, rest)?)?,
            b"bytes" => self.asked.extend_from_slice(&unescaped(alloc, rest)?)?,
            b"due" => put_line(&mut self.due, &unescaped(alloc, rest)?)?,
            b"done" => self.end = rest,
            b"read" => self.read = Some(number(rest)?),
            _ => self.option(alloc, word, rest)?,
        }
        Ok(())
    }

    /// A field of the next request.
    fn with(&mut self, alloc: Global, text: &[u8]) -> Result<(), Fault> {
        self.fields.extend_from_slice(&unescaped(alloc, text)?)?;
        self.fields.extend_from_slice(b"\r\n")?;
        Ok(())
    }

    fn ask(&mut self, alloc: Global, words: &'a [u8]) -> Result<(), Fault> {
        let request = request(alloc, words, self.fields.as_slice())?;
        self.asked.extend_from_slice(&request)?;
        self.fields.clear();
        self.last_asked = words;
        Ok(())
    }

    fn got(&mut self, alloc: Global, words: &'a [u8]) -> Result<(), Fault> {
        let response = response(alloc, words, self.allow, false)?;
        self.due.extend_from_slice(&response)?;
        self.allow = b"".as_slice();
        self.last_got = words;
        Ok(())
    }

    /// A response with `connection: close`.
    fn last(&mut self, alloc: Global, words: &[u8]) -> Result<(), Fault> {
        let response = response(alloc, words, self.allow, true)?;
        self.due.extend_from_slice(&response)?;
        self.allow = b"".as_slice();
        Ok(())
    }

    /// The last request and its response so many times more, each at the next place.
    fn again(&mut self, alloc: Global, times: u64) -> Result<(), Fault> {
        let (status, words) = cut(self.last_got);
        let (place, body) = cut(words);
        let mut place = number(place)?;
        for _ in 0..times {
            place = place.saturating_add(1);
            let mut words = status.to_vec(alloc)?;
            words.extend_from_slice(format!(in alloc; " {place} ")?.as_bytes())?;
            words.extend_from_slice(body)?;
            self.asked
                .extend_from_slice(&request(alloc, self.last_asked, b"".as_slice())?)?;
            self.due
                .extend_from_slice(&response(alloc, &words, b"".as_slice(), false)?)?;
        }
        Ok(())
    }

    fn receipt(&mut self, text: &[u8]) -> Result<(), Fault> {
        self.receipts.extend_from_slice(text)?;
        self.receipts.push(b'\n')?;
        Ok(())
    }

    fn option(&mut self, alloc: Global, word: &[u8], rest: &[u8]) -> Result<(), Fault> {
        match word {
            b"pieces" => self.pieces = numbers(alloc, rest)?,
            b"failing-reads" => self.failing_reads = numbers(alloc, rest)?,
            b"failing-writes" => self.failing_writes = numbers(alloc, rest)?,
            b"room" => self.room = number(rest)?,
            b"clock" => self.moment = number(rest)?,
            b"limits" => self.limits(rest)?,
            b"draws" => self.draws = draws(alloc, rest)?,
            _ => return Err(Fault::Line),
        }
        Ok(())
    }

    /// How many entries the journal may have, and how many composed roles are cached.
    fn limits(&mut self, text: &[u8]) -> Result<(), Fault> {
        let (journal, role_cache) = cut(text);
        self.journal = number(journal)?;
        self.role_cache = number(role_cache)?;
        Ok(())
    }
}

/// A text with a line feed behind it.
fn put_line(bytes: &mut Vec<u8>, text: &[u8]) -> Result<(), Fault> {
    bytes.extend_from_slice(text)?;
    bytes.push(b'\n')?;
    Ok(())
}
