ghost use Rattle.std.specs.Prelude.{None};

use crate::{Failed, Piece, Shelf};
use std::fs;
use std::io::Read;
use std::rt::Files;

/// A shelf of the system's files. It tells nothing, and keeps its count.
#[derive(Drop)]
pub struct FileShelf<'a, R: Files> {
    rt: &'a R,
    file: Option<R::File>,
    count: u64,
}

impl<'a, R: Files> FileShelf<'a, R> {
    /// No file is begun yet.
    pub fn new(rt: &'a R) -> FileShelf<'a, R> {
        FileShelf {
            rt,
            file: None,
            count: 0,
        }
    }
}

impl<'a, R: Files> Shelf for FileShelf<'a, R> {
    ghost files = { λ _. None };

    ghost left = { λ _. None };

    ghost faults = { λ s. s.count };

    fn start(&mut self, name: &str) -> Result<(), Failed> {
        match fs::open(self.rt, name) {
            Ok(file) => {
                self.file = Some(file);
                Ok(())
            }
            Err(_) => {
                self.count = self.count.saturating_add(1);
                Err(Failed)
            }
        }
    }

    fn read(&mut self, buf: &mut [u8]) -> Piece {
        let len = buf.len();
        if let Some(file) = &mut self.file {
            if let Ok(count) = file.read(buf) {
                if count == 0 {
                    return Piece::End;
                }
                if count <= len {
                    return Piece::Got(count);
                }
            }
        }
        self.count = self.count.saturating_add(1);
        Piece::Failed
    }
}
