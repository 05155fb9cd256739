// What a run of the program has from its first file to its last.
use crate::objects::{Object, Objects};
use std::alloc::{AllocError, Global};
use std::io;

// How many bytes wait to be printed before they are.
const ENOUGH: usize = 65536;

// The system that a run is on, its objects, and what it has yet to print.
#[derive(Drop)]
pub struct Session<'r> {
    pub rt: &'r HostRuntime,
    pub objects: Objects,
    pub out: String,
}

impl<'r> Session<'r> {
    // A run that has no objects yet.
    pub fn new(rt: &'r HostRuntime) -> Session<'r> {
        Session {
            rt,
            objects: Objects::new(rt.alloc()),
            out: String::new(rt.alloc()),
        }
    }

    // Where the run has its memory from.
    pub(crate) fn heap(&self) -> Global {
        self.rt.alloc()
    }

    // Gives a name an object, in place of any that it had.
    pub(crate) fn define(&mut self, name: &str, object: Object) -> Result<(), AllocError> {
        let heap = self.heap();
        self.objects.define(heap, name, object)
    }

    // Prints what waits.
    pub fn flush(&mut self) -> io::Result<()> {
        self.rt.print(self.out.as_str())?;
        self.out.clear();
        Ok(())
    }

    // Prints what waits where that is much.
    pub fn flush_much(&mut self) -> io::Result<()> {
        if self.out.len() < ENOUGH {
            Ok(())
        } else {
            self.flush()
        }
    }
}
