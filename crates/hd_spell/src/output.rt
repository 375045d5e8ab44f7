//! The bytes of a dump as they are written.
use std::alloc::{AllocError, Global};

/// A record that is being written.
#[derive(Drop)]
struct Record {
    tag: u8,
    body: Vec<u8>,
}

/// A dump that is being written: whole records, and the one that is open.
#[derive(Drop)]
pub struct Output {
    alloc: Global,
    file: Vec<u8>,
    open: Option<Record>,
    has_wide_ids: bool,
}

impl Output {
    /// No bytes yet, and IDs of four bytes.
    pub fn new(alloc: Global) -> Output {
        Output {
            alloc,
            file: Vec::new(alloc),
            open: None,
            has_wide_ids: false,
        }
    }

    /// The number of bytes of an ID.
    pub fn id_len(&self) -> u32 {
        if self.has_wide_ids { 8 } else { 4 }
    }

    /// Writes the header of a dump of a version of the format, with IDs of eight or of four bytes.
    pub fn put_header(&mut self, version: &str, has_wide_ids: bool) -> Result<(), AllocError> {
        self.has_wide_ids = has_wide_ids;
        self.put_bytes(b"JAVA PROFILE ")?;
        self.put_bytes(version.as_bytes())?;
        self.put_bytes(b"\0")?;
        self.put_number(self.id_len())?;
        self.put_bytes(&[0; 8])
    }

    /// Writes bytes into the open record, or into the file where none is open.
    pub fn put_bytes(&mut self, bytes: &[u8]) -> Result<(), AllocError> {
        match &mut self.open {
            Some(record) => record.body.extend_from_slice(bytes),
            None => self.file.extend_from_slice(bytes),
        }
    }

    /// Writes a number of four bytes.
    pub fn put_number(&mut self, number: u32) -> Result<(), AllocError> {
        self.put_bytes(&number.to_be_bytes())
    }

    /// Writes how many there are of something.
    pub fn put_count(&mut self, count: usize) -> Result<(), AllocError> {
        self.put_number(count.min(0x7fff_ffff) as u32)
    }

    /// Writes an ID. One of four bytes is cut to its lowest 32 bits.
    pub fn put_id(&mut self, id: u64) -> Result<(), AllocError> {
        if self.has_wide_ids {
            self.put_bytes(&id.to_be_bytes())
        } else {
            self.put_number((id & 0xffff_ffff) as u32)
        }
    }

    /// Begins a record of a tag.
    pub fn begin(&mut self, tag: u8) -> Result<(), AllocError> {
        self.end()?;
        let body = Vec::new(self.alloc);
        self.open = Some(Record { tag, body });
        Ok(())
    }

    /// Ends the open record, if there is one: it goes into the file, at time 0.
    pub fn end(&mut self) -> Result<(), AllocError> {
        let Some(record) = self.open.take() else {
            return Ok(());
        };
        self.put_bytes(&[record.tag, 0, 0, 0, 0])?;
        self.put_count(record.body.len())?;
        self.put_bytes(record.body.as_slice())
    }

    /// The bytes of the whole dump.
    pub fn into_bytes(self) -> Result<Vec<u8>, AllocError> {
        let mut whole = self;
        whole.end()?;
        Ok(whole.file)
    }
}
