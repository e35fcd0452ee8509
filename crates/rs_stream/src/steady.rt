//! Readers and writers that tell always or never.
ghost use Rattle.std.specs.Prelude.{◌≡◌, Bool, true, false, is_some, refl};

use std::alloc::Allocator;
use std::io::{Read, Stderr, Stdin, Stdout, Write};
use std::net::TcpStream;

/// A reader that always knows the bytes that it will give, or never does.
///
/// std's `Read` lets a reader that knew nothing begin to know. Most know from the start, as a slice does, or never, as a
/// stream of the system.
pub trait SteadyRead: Read {
    /// Whether it knows.
    ghost is_telling: { Bool };

    ghost steady: { (reader : Self) → is_some (Self.remaining reader) ≡ is_telling };
}

/// A writer that always knows the bytes that it holds, or never does.
pub trait SteadyWrite: Write {
    /// Whether it knows.
    ghost is_telling: { Bool };

    ghost steady: { (writer : Self) → is_some (Self.contents writer) ≡ is_telling };
}

impl SteadyRead for Stdin {
    ghost is_telling = { false };

    ghost steady = { λ _. refl };
}

impl SteadyRead for TcpStream {
    ghost is_telling = { false };

    ghost steady = { λ _. refl };
}

impl SteadyRead for &[u8] {
    ghost is_telling = { true };

    ghost steady = { λ _. refl };
}

impl SteadyWrite for Stdout {
    ghost is_telling = { false };

    ghost steady = { λ _. refl };
}

impl SteadyWrite for Stderr {
    ghost is_telling = { false };

    ghost steady = { λ _. refl };
}

impl SteadyWrite for TcpStream {
    ghost is_telling = { false };

    ghost steady = { λ _. refl };
}

impl<A: Allocator> SteadyWrite for Vec<u8, A> {
    ghost is_telling = { true };

    ghost steady = { λ _. refl };
}
