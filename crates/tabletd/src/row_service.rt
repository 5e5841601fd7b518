//! Serves a server of several, over rows and stamps that another program keeps and answers through pipes.

ghost use Rattle.std.specs.Prelude.{◌≡◌};

use crate::{NO_MEMORY, NO_MEMORY_LINE, WAITING};
use cell_key::Refusal;
use command_line::Options;
use remote_rows::{PipeWire, RemoteRows, RemoteStamps};
use row_server::{RowServer, serve_clients};
use server_loop::{ClientServer, End, ServeFault, end_status, open_status};
use std::alloc::{AllocError, Global};
use std::fs::{File, OpenOptions};
use std::io::BufWriter;
use std::rt::Files as Folders;
use std::{io, mem};

/// The exit status once the rows or the stamps have failed, and its line on standard error.
const ROWS_FAILED: (u8, &'static str) = (4, "tabletd: rows failed");

/// A wire through the two pipes of a folder with these names.
fn wire_of<R>(rt: &R, to: &str, from: &str) -> io::Result<PipeWire<File, File>>
where
    R: AllocGlobal + Folders<File = File>,
{
    let mut how = OpenOptions::new();
    how.write(true);
    let to = how.open(rt, to)?;
    let from = File::open(rt, from)?;
    Ok(PipeWire::new(rt.alloc(), to, from))
}

/// The wires of a folder's pipes: that of the rows, and that of the stamps.
fn wires_of<R>(rt: &R, folder: &str) -> io::Result<(PipeWire<File, File>, PipeWire<File, File>)>
where
    R: AllocGlobal + Folders<File = File>,
{
    let alloc = rt.alloc();
    let rows = wire_of(
        rt,
        &format!(in alloc; "{folder}/rows.to")?,
        &format!(in alloc; "{folder}/rows.from")?,
    )?;
    let stamps = wire_of(
        rt,
        &format!(in alloc; "{folder}/stamps.to")?,
        &format!(in alloc; "{folder}/stamps.from")?,
    )?;
    Ok((rows, stamps))
}

/// The exit status after the input ended, and its line on standard error.
fn status_of(ended: &Result<End, ServeFault>) -> (u8, &'static str) {
    match ended {
        Err(ServeFault::Log) => ROWS_FAILED,
        _ => end_status(ended),
    }
}

/// Serves standard input with a server of several over the rows behind the pipes of a folder: `rows.to`, `rows.from`,
/// `stamps.to` and `stamps.from`, which are opened in this order. Returns the exit status, with its line on standard
/// error.
pub fn serve_rows<R>(rt: &R, folder: &str, options: &Options<'_>) -> (u8, &'static str)
where
    R: AllocGlobal + io::Input + io::Print + Folders<File = File>,
{
    let alloc = rt.alloc();
    let (rows, stamps) = match wires_of(rt, folder) {
        Ok(wires) => wires,
        Err(error) => {
            return match error.kind() {
                io::ErrorKind::OutOfMemory => open_status(&Refusal::NoMemory),
                _ => open_status(&Refusal::Device),
            };
        }
    };
    let rows = RemoteRows::new(alloc, rows);
    let mut server = RowServer::new(alloc, rows, RemoteStamps::new(stamps));
    if let Some(most) = options.session_bytes {
        server.limit_buffer(u64::from(most));
    }
    let Ok(mut writer) = BufWriter::with_capacity(alloc, WAITING, io::writer(rt)) else {
        return (NO_MEMORY, NO_MEMORY_LINE);
    };
    let mut reader = rt.reader();
    if options.clients {
        let mut server = ClientServer::new(alloc, server, options.admin);
        let ended = serve_clients(&mut server, &mut reader, &mut writer, u64::MAX);
        // The program ends, and the system frees its memory at once.
        mem::forget(server);
        return status_of(&ended);
    }
    let ended = server.serve(&mut reader, &mut writer, u64::MAX);
    mem::forget(server);
    status_of(&ended)
}
