//! The cells of a line, with ` => ` between each two.
use crate::escapes::unescaped;
use crate::faults::Fault;
use es_tree::{Tree, TreeFault};
use std::alloc::Global;

/// What is asked, and what is due.
#[derive(Drop)]
pub struct Cells {
    asked: Vec<Vec<u8>>,
    due: Vec<u8>,
}

impl Cells {
    /// The cells of a table's head and then those of a line. The last one is what is due.
    pub fn read(alloc: Global, head: &str, line: &str) -> Result<Cells, Fault> {
        let mut asked = Vec::new(alloc);
        if !head.is_empty() {
            add(alloc, &mut asked, head)?;
        }
        add(alloc, &mut asked, line)?;
        match asked.pop() {
            Some(due) => Ok(Cells { asked, due }),
            None => Err(Fault::Line),
        }
    }

    /// What is due.
    pub fn due(&self) -> &[u8] {
        self.due.as_slice()
    }

    /// The bytes of a cell that is asked.
    pub fn bytes(&self, at: usize) -> Result<&[u8], Fault> {
        match self.asked.get(at) {
            Some(cell) => Ok(cell.as_slice()),
            None => Err(Fault::Line),
        }
    }

    /// The text of a cell that is asked.
    pub fn text(&self, at: usize) -> Result<&str, Fault> {
        match str::from_utf8(self.bytes(at)?) {
            Ok(text) => Ok(text),
            Err(_) => Err(Fault::Line),
        }
    }

    /// The tree of a cell that is asked.
    pub fn tree(&self, alloc: Global, at: usize) -> Result<Tree, Fault> {
        tree_of(alloc, self.bytes(at)?)
    }
}

fn add(alloc: Global, asked: &mut Vec<Vec<u8>>, text: &str) -> Result<(), Fault> {
    for cell in text.split(" => ") {
        asked.push(unescaped(alloc, cell.as_bytes())?)?;
    }
    Ok(())
}

/// The tree that a text is.
pub fn tree_of(alloc: Global, text: &[u8]) -> Result<Tree, Fault> {
    match es_tree::read(alloc, text) {
        Ok(tree) => Ok(tree),
        Err(TreeFault::NoMemory) => Err(Fault::NoMemory),
        Err(_) => Err(Fault::Line),
    }
}
