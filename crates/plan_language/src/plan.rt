ghost use Rattle.std.specs.Prelude.{◌≡◌, ◌≢◌, ◌≤◌, ◌+◌, [], ◌∷◌, ◌++◌, length, option_map};
ghost use Rattle.std.specs.Prelude.{IfOk, None, OnErr, OnOk, Some};
ghost use Rattle.plan_language.specs.Limits.{limits_of};
ghost use Rattle.plan_language.specs.Lines.{plan_commands, count, line_count, ArePlanLines, IsLine, IsWithin};
ghost use Rattle.plan_language.specs.Lines.{FitsVersion, IsPlan, IsVersion};
ghost use Rattle.std.specs.List.{AllByRecursion};

use crate::limits::Limits;
use crate::line::Line;
use byte_texts::Memory;
use node_names::NodeNames;
use std::alloc::Global;
use std::marker::Model;

/// A plan: the version of its rules, the nodes that its text lists with their names, and its lines between these and
/// the end. A plan without names is written as one of this version, and has at most eight nodes. With names, the rules
/// of version 1 make version 4, and those of version 3 version 5, for a cluster of servers of up to 255 nodes.
pub struct Plan {
    version: u8,
    names: Option<NodeNames>,
    lines: Vec<Line>,
}

/// Written out, so that a proof sees one call where such a value is dropped.
impl Drop for Plan {
    fn drop(self) {
        let Self {
            version: _,
            names,
            lines,
        } = self;
        drop(names);
        drop(lines);
    }
}

impl Model for Plan {
    ghost use Rattle.plan_language.specs.Lines.{IsPlan};
    ghost use Rattle.plan_language.specs.PlanView.{PlanView};

    ghost Value = { PlanView };

    ghost view = { λ p. record { version = p.version; names = p.names; lines = p.lines.items } };

    ghost invariant = { λ p. IsPlan (record { version = p.version; names = p.names; lines = p.lines.items }) };
}

impl Plan {
    /// The plan of version 1 without lines, which takes no memory.
    pub fn empty(alloc: Global) -> Self
        ensures { result ≡ record { version = 1; names = None; lines = [] } }
    {
        Self::of_version(alloc, 1)
    }

    /// The plan of this version without names or lines, which takes no memory. In version 1 a slot moves once at most,
    /// in the others any number of times, and in version 3 a slot may be set stable.
    pub fn of_version(alloc: Global, version: u8) -> Self
        requires { IsVersion version }
        ensures { result ≡ record { version = version; names = None; lines = [] } }
    {
        Self {
            version,
            names: None,
            lines: Vec::new(alloc),
        }
    }

    /// The plan with these names, the rules of this version and no lines. There are rules of versions 1 and 3. While
    /// the plan is made it may mention nodes that are not listed, which [`with_names`](Self::with_names) puts in.
    pub fn of_names(version: u8, names: NodeNames) -> Self
        requires version { IsVersion version }
        requires rules { version ≢ 2 }
        ensures { result ≡ record { version = version; names = Some names; lines = [] } }
    {
        let lines = Vec::new(names.allocator());
        Self {
            version,
            names: Some(names),
            lines,
        }
    }

    /// The plan with these names in place of those that it has.
    pub fn with_names(self, names: NodeNames) -> Self
        requires { self.names ≢ None }
        ensures { result ≡ record self { names = Some names } }
    {
        let Self {
            version,
            names: old,
            lines,
        } = self;
        drop(old);
        Self {
            version,
            names: Some(names),
            lines,
        }
    }

    /// Puts the line at the end, or leaves the plan as it is where memory runs out. The nodes and the batch of the line
    /// are within their limits, it may stand in a plan of this version, and all lines together count as no more
    /// commands than the plan's limits allow.
    #[tactic(auto, using(crate::proofs::Pushed::pushed))]
    pub fn push(&mut self, line: Line) -> Result<(), Memory>
        requires well_formed { IsLine line }
        requires within { IsWithin (limits_of self.old.names) line }
        requires fits { FitsVersion self.old.version line }
        requires room { count (limits_of self.old.names) self.old.lines + line_count (limits_of self.old.names) line
            ≤ (limits_of self.old.names).commands }
        ensures ok { OnOk result (self.new ≡ record self.old { lines = self.old.lines ++ line ∷ [] }) }
        ensures err { OnErr result (self.new ≡ self.old) }
    {
        self.lines.extend_from_slice(&[line])?;
        Ok(())
    }

    /// The version of the plan's rules: 1, 2 or 3.
    pub fn version(&self) -> u8
        ensures value { result ≡ self.now.version }
        ensures within { IsVersion result }
    {
        self.version
    }

    /// The nodes that the plan's text lists with their names, if it is of a version that does.
    pub fn names(&self) -> Option<&NodeNames>
        ensures { option_map (λ names. names.now) result ≡ self.now.names }
    {
        self.names.as_ref()
    }

    /// How many nodes and commands the plan has at most.
    pub fn limits(&self) -> Limits
        ensures { result ≡ limits_of self.now.names }
    {
        match self.names {
            None => Limits::few(),
            Some(_) => Limits::many(),
        }
    }

    /// The plan's lines.
    pub fn lines(&self) -> &[Line]
        ensures value { result.now ≡ self.now.lines }
        ensures well_formed { ArePlanLines (limits_of self.now.names) result.now }
        ensures fit { AllByRecursion (FitsVersion self.now.version) result.now }
        ensures plan { IsPlan self.now }
    {
        self.lines.as_slice()
    }

    /// The plan's lines, without its names.
    pub(crate) fn into_lines(self) -> Vec<Line>
        ensures value { result.items ≡ self.lines }
        ensures well_formed { AllByRecursion IsLine result.items }
    {
        let Self {
            version: _,
            names,
            lines,
        } = self;
        drop(names);
        lines
    }

    /// How many commands the plan stands for in a cluster of so many nodes. Takes no memory.
    #[tactic(auto, using(crate::proofs::Counting::lines_left))]
    pub fn expanded_len(&self, nodes: u8) -> u32
        ensures { result ≡ length (plan_commands nodes self.now.lines) }
    {
        let mut length = 0;
        for line in &self.lines {
            length += line.expanded_len(nodes);
        }
        length
    }

    /// Where the plan's memory comes from.
    pub fn allocator(&self) -> Global {
        *self.lines.allocator()
    }

    /// An equal plan of its own.
    pub fn try_copy(&self) -> Result<Self, Memory>
        ensures { IfOk result (λ p. p ≡ self.now) }
    {
        let lines = Vec::from_slice(*self.lines.allocator(), self.lines.as_slice())?;
        let names = match &self.names {
            None => None,
            Some(names) => Some(names.try_copy()?),
        };
        Ok(Self {
            version: self.version,
            names,
            lines,
        })
    }
}
