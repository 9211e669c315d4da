// A certificate as far as its lines were read.
ghost use Rattle.std.specs.Prelude.{◌≡◌, OnOk, false, true, map};
ghost use Rattle.gd_base.specs.Causes.{Gives};
ghost use Rattle.gd_cert.specs.Certificates.{Reject, body_of, certificate_of, Open};
ghost use Rattle.gd_cert.specs.Drafts.{draft_of, line_cause, texts};
ghost use Rattle.gd_cert.specs.Reading.{certificate_in, empty_draft, last_fault, lines_of, with_body, with_counts};
ghost use Rattle.gd_cert.specs.Reading.{with_group, with_heading, with_line, with_node, with_share, with_title};
ghost use Rattle.gd_cert.specs.Reading.{with_told, with_tree_line, with_witness, without_tree};
ghost use Rattle.gd_cert.specs.declared.cert.CertGroup.{CertGroup};

use crate::cert::{Cert, CertBody, CertGroup, Head};
use crate::line::{
    is_behind_tree, read_counts, read_group, read_heading, read_node, read_share, read_told,
    read_witness,
};
use crate::rule::{LineFault, Rule};
use crate::stage::Stage;
use crate::title::is_title;
use gd_base::{Counts, Memory};
use gd_cells::Node;
use std::alloc::Global;
use std::mem;

/// What the lines so far tell: the head, the groups that are whole, which line comes next, on which line the last group
/// begins, and the lines of its tree.
#[derive(Drop)]
pub(crate) struct CertDraft {
    head: Head,
    share: u32,
    told: u32,
    groups: Vec<CertGroup>,
    stage: Stage,
    begun: u32,
    tree: Vec<Node>,
}

impl CertDraft {
    /// Before the first line.
    pub(crate) fn new(alloc: Global) -> CertDraft
        ensures { draft_of result ≡ empty_draft }
    {
        CertDraft {
            head: Head::Plain,
            share: 0,
            told: 1,
            groups: Vec::new(alloc),
            stage: Stage::Title,
            begun: 0,
            tree: Vec::new(alloc),
        }
    }

    /// Takes the words of one more line, whose number is `line`.
    #[tactic(auto, unfolding(crate::specs::Reading::with_line))]
    pub(crate) fn take_line(
        &mut self,
        alloc: Global,
        line: u32,
        words: &[&[u8]],
    ) -> Result<(), LineFault>
        ensures { Gives line_cause (λ x. draft_of self.new) result (with_line line (texts words.now)
            (draft_of self.old)) }
    {
        match self.stage {
            Stage::Title => self.take_title(words),
            Stage::Heading => self.take_heading(alloc, words),
            Stage::Share => self.take_share(words),
            Stage::Told => self.take_told(words),
            Stage::Group => self.take_group(line, words),
            Stage::Witness => self.take_witness(alloc, words),
            Stage::Counts => self.take_counts(words),
            Stage::Reject => self.take_reject_line(alloc, line, words),
            Stage::Open(counts) => self.take_open_line(alloc, line, words, counts),
            Stage::Done => Err(LineFault::Rule(Rule::Behind)),
        }
    }

    fn take_title(&mut self, words: &[&[u8]]) -> Result<(), LineFault>
        ensures { Gives line_cause (λ x. draft_of self.new) result (with_title (texts words.now) (draft_of self.old)) }
    {
        if !is_title(words) {
            return Err(LineFault::Rule(Rule::Title));
        }
        self.stage = Stage::Heading;
        Ok(())
    }

    fn take_heading(&mut self, alloc: Global, words: &[&[u8]]) -> Result<(), LineFault>
        ensures { Gives line_cause (λ x. draft_of self.new) result (with_heading (texts words.now)
            (draft_of self.old)) }
    {
        self.head = read_heading(alloc, words)?;
        self.stage = Stage::Share;
        Ok(())
    }

    fn take_share(&mut self, words: &[&[u8]]) -> Result<(), LineFault>
        ensures { Gives line_cause (λ x. draft_of self.new) result (with_share (texts words.now) (draft_of self.old)) }
    {
        self.share = read_share(words)?;
        self.stage = Stage::Told;
        Ok(())
    }

    fn take_told(&mut self, words: &[&[u8]]) -> Result<(), LineFault>
        ensures { Gives line_cause (λ x. draft_of self.new) result (with_told (texts words.now) (draft_of self.old)) }
    {
        self.told = read_told(words)?;
        self.stage = Stage::Group;
        Ok(())
    }

    fn take_group(&mut self, line: u32, words: &[&[u8]]) -> Result<(), LineFault>
        ensures { Gives line_cause (λ x. draft_of self.new) result (with_group line (texts words.now)
            (draft_of self.old)) }
    {
        self.stage = read_group(self.groups.len() + 1, words)?;
        self.begun = line;
        Ok(())
    }

    fn take_witness(&mut self, alloc: Global, words: &[&[u8]]) -> Result<(), LineFault>
        ensures { Gives line_cause (λ x. draft_of self.new) result (with_witness (texts words.now)
            (draft_of self.old)) }
    {
        let body = read_witness(alloc, words)?;
        self.add_body(body)?;
        Ok(())
    }

    fn take_counts(&mut self, words: &[&[u8]]) -> Result<(), LineFault>
        ensures { Gives line_cause (λ x. draft_of self.new) result (with_counts (texts words.now) (draft_of self.old)) }
    {
        self.stage = read_counts(words)?;
        Ok(())
    }

    fn take_reject_line(
        &mut self,
        alloc: Global,
        line: u32,
        words: &[&[u8]],
    ) -> Result<(), LineFault>
        ensures { Gives line_cause
            (λ x. draft_of self.new) result (with_tree_line line (texts words.now) false (Reject self.old.tree.items)
            (draft_of self.old)) }
    {
        if !is_behind_tree(words) {
            return self.take_node(false, words);
        }
        let tree = self.whole_tree(alloc);
        self.take_behind(CertBody::Reject { tree }, line, words)
    }

    fn take_open_line(
        &mut self,
        alloc: Global,
        line: u32,
        words: &[&[u8]],
        counts: Counts,
    ) -> Result<(), LineFault>
        ensures { Gives line_cause
            (λ x. draft_of self.new) result (with_tree_line line (texts words.now) true (Open counts
            self.old.tree.items) (draft_of self.old)) }
    {
        if !is_behind_tree(words) {
            return self.take_node(true, words);
        }
        let tree = self.whole_tree(alloc);
        let body = CertBody::StillOpen { counts, tree };
        self.take_behind(body, line, words)
    }

    // The lines of the tree, which is whole.
    fn whole_tree(&mut self, alloc: Global) -> Vec<Node>
        ensures tree { result.items ≡ self.old.tree.items }
        ensures without { draft_of self.new ≡ without_tree (draft_of self.old) }
    {
        mem::replace(&mut self.tree, Vec::new(alloc))
    }

    // Takes the line behind a group that is whole.
    fn take_behind(&mut self, body: CertBody, line: u32, words: &[&[u8]]) -> Result<(), LineFault>
        ensures { Gives line_cause (λ x. draft_of self.new) result (with_group line (texts words.now)
            (with_body (body_of body) (draft_of self.old))) }
    {
        self.add_body(body)?;
        self.take_group(line, words)
    }

    #[inline(always)]
    fn take_node(&mut self, undecided: bool, words: &[&[u8]]) -> Result<(), LineFault>
        ensures { Gives line_cause (λ x. draft_of self.new) result (with_node undecided (texts words.now)
            (draft_of self.old)) }
    {
        let node = read_node(undecided, words)?;
        self.tree.push(node)?;
        Ok(())
    }

    // The group that was begun is whole.
    fn add_body(&mut self, body: CertBody) -> Result<(), Memory>
        ensures { OnOk result (draft_of self.new ≡ with_body (body_of body) (draft_of self.old)) }
    {
        self.groups.push(CertGroup {
            line: self.begun,
            body,
        })?;
        self.stage = Stage::Group;
        Ok(())
    }

    /// What is wrong with what follows the last line end, where that isn't nothing behind `end`.
    pub(crate) fn last_fault(&self, rest: &[u8]) -> Option<Rule>
        ensures { result ≡ last_fault (draft_of self.now).stage rest.now }
    {
        match self.stage {
            Stage::Done => {
                if rest.is_empty() {
                    None
                } else {
                    Some(Rule::Behind)
                }
            }
            _ => Some(Rule::Cut),
        }
    }

    /// The certificate that was read.
    pub(crate) fn into_cert(self) -> Cert
        ensures certificate { certificate_of result ≡ certificate_in (draft_of self) }
        ensures lines { map (λ (group : CertGroup). group.line) result.groups.items ≡ lines_of (draft_of self).groups }
    {
        Cert {
            head: self.head,
            share: self.share,
            told: self.told,
            groups: self.groups,
        }
    }
}
