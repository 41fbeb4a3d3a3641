//! The declarations of a file, as far as they were built.

use crate::around::Around;
use crate::meanings::Meanings;
use dl_forms::Names;
use dl_model::{Decls, Instances};
use sqlite_items::Items;
use std::alloc::Global;

/// The declarations of a file, as far as they were built.
#[derive(Drop)]
pub struct Built {
    /// The declarations themselves.
    pub decls: Decls,
    /// What each name was declared as.
    pub meanings: Meanings,
    /// For each procedure, of each of its points from the first whether it is a read.
    pub points: Items<Items<bool>>,
}

impl Built {
    /// So many nodes, and nothing else.
    pub(crate) fn new(alloc: Global, nodes: u32, meanings: Meanings) -> Built {
        let inst = Instances {
            nodes,
            protocols: Items::new(alloc),
            of: Items::new(alloc),
        };
        let decls = Decls {
            inst,
            labels: Items::new(alloc),
            hooks: Items::new(alloc),
            worlds: Items::new(alloc),
            invariants: Items::new(alloc),
            procs: Items::new(alloc),
            deploy: None,
        };
        Built {
            decls,
            meanings,
            points: Items::new(alloc),
        }
    }

    /// What names stand for behind what was built, outside of protocols.
    pub fn around<'a>(&'a self, names: &'a Names) -> Around<'a> {
        Around {
            names,
            meanings: &self.meanings,
            inst: &self.decls.inst,
            fields: &[],
            tags: &[],
            hiding: &[],
        }
    }

    /// The declarations alone.
    pub fn into_decls(self) -> Decls {
        let Built {
            decls,
            meanings,
            points,
        } = self;
        drop(meanings);
        drop(points);
        decls
    }
}
