//! The table of terms.

ghost use Rattle.std.specs.Prelude.{◌≡◌, ◌≤◌, ℤ, pos, IfOk, All, [], ◌∷◌, Some, length, map, slice_get, unwrap_or};
ghost use Rattle.jesc_logic.specs.Tables.{is_open as is_open_term};
ghost use Rattle.jesc_logic.specs.Making.{node_over, place_in};
ghost use Rattle.jesc_logic.specs.Terms.{number, binary, applied, node_term, term_at, IsIn, IsBelow, StandsFor, Keeps, AreApart};

use indexmap::IndexMap;
use std::alloc::Global;
use std::marker::Model;

/// The number of a term.
#[derive(Debug, Drop, Clone, Copy, PartialEq, Eq, Hash)]
pub struct TermId(pub u32);

/// One level of a term: a number, or a symbol applied to at most three terms.
///
/// `arity` tells how many of the places `a`, `b`, `c` count. Those past it are `TermId(0)`.
#[derive(Debug, Drop, Clone, Copy, PartialEq, Eq, Hash)]
pub enum Node {
    Num(i128),
    App {
        symbol: u32,
        arity: u8,
        a: TermId,
        b: TermId,
        c: TermId,
    },
}

/// What a call that makes terms answers where it makes none.
#[derive(Debug, Drop, Clone, Copy, PartialEq, Eq)]
pub enum TermError {
    OutOfMemory,
}

/// A table of terms, each of which has one number. Contracts see it as the list of the terms, by number.
///
/// Beside each node stands whether its term holds a variable of a fact: `instantiate` goes into no other term.
#[derive(Drop)]
pub struct Terms {
    nodes: IndexMap<Node, bool>,
}

impl Model for Terms {
    ghost use Rattle.std.specs.Prelude.{List};
    ghost use Rattle.jesc_logic.specs.Terms.{Term};
    ghost use Rattle.jesc_logic.specs.Tables.{terms_of, IsTable};
    ghost use Rattle.jesc_logic.specs.TermCodes.{coded_term};
    ghost use Rattle.std.specs.Coded.{coded_list};

    ghost Value = { List Term };

    ghost coded = { coded_list coded_term };

    ghost view = { λ terms. terms_of terms.nodes.entries };

    ghost invariant = { λ terms. IsTable terms.nodes.entries };
}

impl Terms {
    /// No terms. Takes no memory.
    pub fn new(alloc: Global) -> Terms
        ensures { result ≡ [] }
    {
        Terms {
            nodes: IndexMap::new(alloc),
        }
    }

    /// The number of terms. Takes no memory.
    pub fn len(&self) -> u32
        ensures count { result ≡ length self.now }
        ensures apart { AreApart self.now }
    {
        self.nodes.len() as u32
    }

    /// The number of a node's term, a new one where it has none.
    fn intern(&mut self, node: Node, is_open: bool) -> Result<TermId, TermError>
        requires below { IsBelow (length self.old) node }
        requires marked { is_open ≡ is_open_term (node_term self.old node) }
        ensures keeps { Keeps self.old self.new }
        ensures apart { AreApart self.new }
        ensures term { IfOk result (λ id. StandsFor self.new id (node_term self.old node)) }
    {
        if let Some(at) = self.nodes.get_index_of(&node) {
            return Ok(TermId(at as u32));
        }
        let at = self.nodes.len();
        if at >= 0xffff_ffff {
            return Err(TermError::OutOfMemory);
        }
        let Ok(_) = self.nodes.insert(node, is_open) else {
            return Err(TermError::OutOfMemory);
        };
        Ok(TermId(at as u32))
    }

    /// The allocator of the table.
    pub(crate) fn allocator(&self) -> Global {
        *self.nodes.allocator()
    }

    /// The node of a number that is there. Takes no memory.
    pub fn node(&self, id: TermId) -> Node
        requires { IsIn self.now id }
        ensures term { StandsFor self.now id (node_term self.now result) }
        ensures below { IsBelow id.0 result }
    {
        match self.nodes.get_index(id.0 as usize) {
            Some((node, _)) => *node,
            None => Node::Num(0),
        }
    }

    /// Whether the term holds a variable of a fact.
    pub(crate) fn is_open(&self, id: TermId) -> bool
        requires { IsIn self.now id }
        ensures mark { result ≡ is_open_term (term_at self.now id) }
        ensures apart { AreApart self.now }
    {
        match self.nodes.get_index(id.0 as usize) {
            Some((_, open)) => *open,
            None => false,
        }
    }

    /// Whether the term of a node over terms that are there holds a variable of a fact.
    fn is_open_node(&self, node: Node) -> bool
        requires { IsBelow (length self.now) node }
        ensures { result ≡ is_open_term (node_term self.now node) }
    {
        match node {
            Node::Num(_) => false,
            Node::App {
                symbol,
                arity: 0,
                ..
            } => 32 <= symbol && symbol < 64,
            Node::App { arity: 1, a, .. } => self.is_open(a),
            Node::App { arity: 2, a, b, .. } => self.is_open(a) || self.is_open(b),
            Node::App { a, b, c, .. } => self.is_open(a) || self.is_open(b) || self.is_open(c),
        }
    }

    /// The number of a whole number's term.
    pub fn num(&mut self, n: i128) -> Result<TermId, TermError>
        ensures keeps { Keeps self.old self.new }
        ensures apart { AreApart self.new }
        ensures term { IfOk result (λ id. StandsFor self.new id (number n)) }
    {
        self.intern(Node::Num(n), false)
    }

    /// The number of a node's term, where the node's parts are there.
    fn make(&mut self, node: Node) -> Result<TermId, TermError>
        requires { IsBelow (length self.old) node }
        ensures keeps { Keeps self.old self.new }
        ensures apart { AreApart self.new }
        ensures term { IfOk result (λ id. StandsFor self.new id (node_term self.old node)) }
    {
        let is_open = self.is_open_node(node);
        self.intern(node, is_open)
    }

    /// The number of the term of a symbol applied to at most three terms.
    pub fn app(&mut self, symbol: u32, args: &[TermId]) -> Result<TermId, TermError>
        requires few { length args.now ≤ 3 }
        requires args { All (IsIn self.old) args.now }
        ensures keeps { Keeps self.old self.new }
        ensures apart { AreApart self.new }
        ensures term { IfOk result (λ id. StandsFor self.new id (applied symbol (map (term_at self.old) args.now))) }
    {
        self.make(node_of(symbol, args))
    }

    /// The number of the term that reads an auxiliary version at an object: symbol 13 over the version's number and the
    /// object.
    pub fn read(&mut self, version: u32, object: TermId) -> Result<TermId, TermError>
        requires { IsIn self.old object }
        ensures keeps { Keeps self.old self.new }
        ensures apart { AreApart self.new }
        ensures term { IfOk result (λ id. StandsFor self.new id (binary 13 (number (pos version)) (term_at self.old object))) }
    {
        let version = self.num(version as i128)?;
        self.app(13, &[version, object])
    }
}

/// The node of a symbol over arguments.
fn node_of(symbol: u32, args: &[TermId]) -> Node
    requires { length args.now ≤ 3 }
    ensures { result ≡ node_over symbol args.now }
{
    Node::App {
        symbol,
        arity: args.len() as u8,
        a: place(args, 0),
        b: place(args, 1),
        c: place(args, 2),
    }
}

/// What stands at a place of a node: 0 past the arguments.
fn place(args: &[TermId], k: usize) -> TermId
    ensures { result ≡ place_in args.now k }
{
    match args.get(k) {
        Some(arg) => *arg,
        None => TermId(0),
    }
}
