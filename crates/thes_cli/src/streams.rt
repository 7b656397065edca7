//! The standard streams of the program, and the arguments that its tasks share.
use std::alloc::Global;
use std::fs::File;
use std::io::{Read, Write};
use std::marker::PhantomData;
use std::net::Net;
use std::rt::Clock;
use thes_base::pipe::Pipe;
use thes_http::connection_count::ConnectionCount;
use thes_jobs::screen::Screen;
use thes_sqlite::progress::Progress;

/// The types of the devices that the program reads, writes and calls. A task has this one type
/// parameter in place of six.
pub trait Devices {
    /// Standard input.
    type Input: Read;

    /// Standard output.
    type Output: Write;

    /// Standard error.
    type Errors: Write;

    /// A posting file.
    type PostingFile: Read + Drop;

    /// The sockets and the clock of the system.
    type System: Net + Clock;

    /// A listener for progress.
    type Listener: Progress;
}

/// The types of the standard streams of a process, the only devices for which `run_in_files` is
/// generic. (If it were generic over `Devices`, with bounds that fix the other types, its proof
/// would exceed the checker's limit of steps.)
pub trait Console {
    /// Standard input.
    type Input: Read;

    /// Standard output.
    type Output: Write;

    /// Standard error.
    type Errors: Write;
}

/// The devices of a process with these standard streams: its files, its sockets and its clock, and
/// a listener that prints progress.
#[derive(Drop)]
pub struct SystemDevices<'r, C> {
    rt: PhantomData<&'r HostRuntime>,
    console: PhantomData<C>,
}

impl<'r, C: Console> Devices for SystemDevices<'r, C> {
    type Input = C::Input;

    type Output = C::Output;

    type Errors = C::Errors;

    type PostingFile = File;

    type System = HostRuntime;

    type Listener = Option<Screen<'r, HostRuntime>>;
}

/// The standard input, output and error of the program, and the number of connections that it
/// served.
#[derive(Drop)]
pub struct Streams<R, W, E> {
    pub input: Pipe<R>,
    pub output: Pipe<W>,
    pub errors: Pipe<E>,
    pub connections: ConnectionCount,
}

/// The arguments that all tasks share: an allocator, the sockets and the clock of the system, and
/// the streams.
pub struct Given<'a, T: Devices> {
    pub alloc: Global,
    pub system: &'a T::System,
    pub streams: Streams<T::Input, T::Output, T::Errors>,
}
