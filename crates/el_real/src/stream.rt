//! What stands behind the handles that the real World gave.
ghost use Rattle.std.specs.Prelude.{◌≡◌, ◌≢◌, ◌≤◌, true, [], Err, length, option_map, IfOk, IfErr};
ghost use Rattle.std.specs.Io.KnownBytes.{Consumes, IsAtEnd, Keeps};
ghost use Rattle.el_real.specs.Held.{is_reader, is_writer, stream_of};
ghost use Rattle.el_real.specs.Streams.{number_of};

use crate::lack::Lack;
use el_words::Bytes;
use el_world::{Handle, MAX_PIECE};
use std::alloc::Global;
use std::fs::File;
use std::io::{PipeReader, PipeWriter, Read, Write};
use std::os::fd::{AsRawFd, RawFd};

/// An open file, or an end of a pipe.
#[derive(Drop)]
pub enum Stream {
    File(File),
    Reader(PipeReader),
    Writer(PipeWriter),
}

/// A handle that was given and not closed.
#[derive(Drop)]
pub struct Held {
    pub handle: Handle,
    pub stream: Stream,
}

/// What stands behind a handle, or None where it isn't held.
pub fn stream_of(held: &[Held], handle: Handle) -> Option<&Stream>
    ensures { option_map (λ stream. stream.now) result ≡ stream_of held.now handle }
{
    held.iter()
        .find(|held| held.handle.number == handle.number)
        .map(|held| &held.stream)
}

/// The next piece of what `reader` reads: at most `MAX_PIECE` bytes, or none at its end. A failed read takes
/// nothing from it. It is read into `buffer`, which serves for all reads.
pub fn next_piece<R: Read>(
    alloc: Global,
    reader: &mut R,
    buffer: &mut Vec<u8>,
) -> Result<Bytes, Lack>
    ensures piece { IfOk result (λ bytes. length bytes ≤ MAX_PIECE) }
    ensures read { IfOk result (λ bytes. Consumes (R.remaining reader.old) (R.remaining reader.new) bytes) }
    ensures end { IfOk result (λ bytes. bytes ≡ [] → IsAtEnd (R.remaining reader.new)) }
    ensures failed { IfErr result (λ lack. lack ≢ Lack.NoMemory → Keeps (R.remaining reader.old) (R.remaining reader.new)) }
{
    buffer.resize(MAX_PIECE, 0)?;
    let read = reader.read(buffer.as_mut_slice())?;
    Ok(Bytes::from_slice(alloc, &buffer[..read])?)
}

impl Stream {
    /// The number of its descriptor, which is open for as long as this is held.
    pub fn number(&self) -> RawFd
        ensures { result ≡ number_of self.now }
    {
        match self {
            Stream::File(file) => file.as_raw_fd(),
            Stream::Reader(reader) => reader.as_raw_fd(),
            Stream::Writer(writer) => writer.as_raw_fd(),
        }
    }

    /// Its next piece; the writing end of a pipe has none.
    pub fn read(&self, alloc: Global, buffer: &mut Vec<u8>) -> Result<Bytes, Lack>
        ensures piece { IfOk result (λ bytes. length bytes ≤ MAX_PIECE) }
        ensures writer { is_writer self.now ≡ true → result ≡ Err Lack.Failed }
    {
        match self {
            Stream::File(file) => {
                let mut file = file;
                next_piece(alloc, &mut file, buffer)
            }
            Stream::Reader(reader) => {
                let mut reader = reader;
                next_piece(alloc, &mut reader, buffer)
            }
            Stream::Writer(_) => Err(Lack::Failed),
        }
    }

    /// Writes all of the bytes; the reading end of a pipe takes none.
    pub fn write(&self, bytes: &[u8]) -> Result<(), Lack>
        ensures { is_reader self.now ≡ true → result ≡ Err Lack.Failed }
    {
        match self {
            Stream::File(file) => {
                let mut file = file;
                Ok(file.write_all(bytes)?)
            }
            Stream::Writer(writer) => {
                let mut writer = writer;
                Ok(writer.write_all(bytes)?)
            }
            Stream::Reader(_) => Err(Lack::Failed),
        }
    }
}
