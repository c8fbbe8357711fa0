ghost use Rattle.std.specs.Prelude.{◌≡◌, ◌∷◌, [], ◌||◌, not, nat_lt, length, slice_get, OnOk};
ghost use Rattle.std.specs.List.{list_any};
ghost use Rattle.dill_script.specs.Blocks.{is_empty, is_loop, is_finally, is_in_if, is_in_program, is_before_finally, may_stand, outside, blocks_behind, loops};

use dill_base::NoMemory;
use dill_script::{Block, Keyword};
use std::alloc::Global;
use std::marker::Model;

/// How many blocks may be open, the program among them.
const MOST_BLOCKS: usize = 16;

/// How many of them may be loops.
const MOST_LOOPS: usize = 4;

/// The blocks that are open at a place, each inside the one before it.
#[derive(Debug, Drop)]
pub(crate) struct Blocks {
    blocks: Vec<Block>,
}

/// Contracts see them with the innermost first.
impl Model for Blocks {
    ghost use Rattle.std.specs.Prelude.{List, reverse};
    ghost use Rattle.dill_script.specs.declared.line.Block.{Block};

    ghost Value = { List Block };

    ghost view = { λ b. reverse b.blocks.items };
}

fn is_loop(block: Block) -> bool
    ensures { result ≡ is_loop block }
{
    matches!(block, Block::Loop)
}

fn is_finally(block: Block) -> bool
    ensures { result ≡ is_finally block }
{
    matches!(block, Block::Finally)
}

fn has_loop(blocks: &[Block]) -> bool
    ensures { result ≡ list_any is_loop blocks.now }
{
    blocks.iter().any(|block| is_loop(*block))
}

fn has_finally(blocks: &[Block]) -> bool
    ensures { result ≡ list_any is_finally blocks.now }
{
    blocks.iter().any(|block| is_finally(*block))
}

fn count_loops(blocks: &[Block]) -> usize
    ensures { result ≡ loops blocks.now }
{
    blocks.iter().filter(|block| is_loop(**block)).count()
}

impl Blocks {
    /// None. It takes no memory.
    pub(crate) fn new(alloc: Global) -> Blocks
        ensures { result ≡ [] }
    {
        Blocks {
            blocks: Vec::new(alloc),
        }
    }

    pub(crate) fn is_empty(&self) -> bool
        ensures { result ≡ is_empty self.now }
    {
        self.blocks.is_empty()
    }

    pub(crate) fn innermost(&self) -> Option<Block>
        ensures { result ≡ slice_get self.now 0 }
    {
        self.blocks.last().copied()
    }

    fn is_in_if(&self) -> bool
        ensures { result ≡ is_in_if self.now }
    {
        matches!(self.innermost(), Some(Block::If))
    }

    fn is_in_program(&self) -> bool
        ensures { result ≡ is_in_program self.now }
    {
        self.blocks.len() == 1 && matches!(self.innermost(), Some(Block::Program))
    }

    #[tactic(auto, using(crate::proofs::Nested::any_reversed))]
    fn is_in_loop(&self) -> bool
        ensures { result ≡ list_any is_loop self.now }
    {
        has_loop(self.blocks.as_slice())
    }

    #[tactic(auto, using(crate::proofs::Nested::any_reversed))]
    fn is_behind_finally(&self) -> bool
        ensures { result ≡ list_any is_finally self.now }
    {
        has_finally(self.blocks.as_slice())
    }

    fn is_before_finally(&self) -> bool
        ensures { result ≡ is_before_finally self.now }
    {
        !self.is_empty() && !self.is_behind_finally()
    }

    /// Whether a line of this keyword may stand here.
    pub(crate) fn may_stand(&self, keyword: Keyword) -> bool
        ensures { result ≡ may_stand self.now keyword }
    {
        match keyword {
            Keyword::Program => self.is_empty(),
            Keyword::Else => self.is_in_if(),
            Keyword::Finally => self.is_in_program(),
            Keyword::Break => self.is_in_loop(),
            Keyword::Loop | Keyword::Return | Keyword::Fail => self.is_before_finally(),
            _ => !self.is_empty(),
        }
    }

    /// Whether a block is open behind a line of this keyword.
    pub(crate) fn leaves_open(&self, keyword: Keyword) -> bool
        ensures { result ≡ not (is_empty (blocks_behind self.now keyword)) }
    {
        match keyword {
            Keyword::Program | Keyword::If | Keyword::Loop => true,
            Keyword::Else | Keyword::Finally => true,
            Keyword::End => self.blocks.len() > 1,
            _ => !self.is_empty(),
        }
    }

    fn open(&mut self, block: Block) -> Result<(), NoMemory>
        ensures { OnOk result (self.new ≡ block ∷ self.old) }
    {
        match self.blocks.push(block) {
            Ok(()) => Ok(()),
            Err(_) => Err(NoMemory),
        }
    }

    fn close(&mut self)
        ensures { self.new ≡ outside self.old }
    {
        let _ = self.blocks.pop();
    }

    /// Goes behind a line of this keyword.
    pub(crate) fn pass(&mut self, keyword: Keyword) -> Result<(), NoMemory>
        ensures { OnOk result (self.new ≡ blocks_behind self.old keyword) }
    {
        match keyword {
            Keyword::Program => self.open(Block::Program),
            Keyword::If => self.open(Block::If),
            Keyword::Loop => self.open(Block::Loop),
            Keyword::Else => {
                self.close();
                self.open(Block::Else)
            }
            Keyword::Finally => {
                self.close();
                self.open(Block::Finally)
            }
            Keyword::End => {
                self.close();
                Ok(())
            }
            _ => Ok(()),
        }
    }

    /// Whether more loops or blocks are open than may be.
    #[tactic(auto, using(crate::proofs::Nested::loops_reversed, crate::proofs::Nested::depth_reversed))]
    pub(crate) fn are_too_deep(&self) -> bool
        ensures { result ≡ (nat_lt 4 (loops self.now) || nat_lt 16 (length self.now)) }
    {
        count_loops(self.blocks.as_slice()) > MOST_LOOPS || self.blocks.len() > MOST_BLOCKS
    }
}
