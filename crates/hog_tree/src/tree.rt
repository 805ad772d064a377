//! The trees of the whole grammar. Fields stand in the order of the spelling, and parentheses leave no trace.

ghost use Rattle.std.specs.Prelude.{◌≡◌};

use hog_value::HogText;
use std::marker::Model;

/// A word that names something, and the place of its first byte in the text.
#[derive(Drop)]
pub struct Named {
    pub at: u32,
    pub word: HogText,
}

/// Names in order. Contracts see the list.
#[derive(Drop)]
pub struct Names {
    items: Vec<Named>,
}

impl Model for Names {
    ghost use Rattle.std.specs.Prelude.{List};
    ghost use Rattle.hog_tree.specs.declared.tree.Named.{Named};

    ghost Value = { List Named };

    ghost view = { λ n. n.items.items };
}

impl Names {
    /// Takes no memory.
    pub fn new(items: Vec<Named>) -> Names
        ensures { result ≡ items.items }
    {
        Names { items }
    }

    /// Takes no memory.
    pub fn items(&self) -> &[Named]
        ensures { result.now ≡ self.now }
    {
        self.items.as_slice()
    }
}

/// An operator between two operands.
#[derive(Clone, Copy, Debug, PartialEq, Eq)]
pub enum BinaryOp {
    Or,
    And,
    Equal,
    NotEqual,
    Less,
    LessEqual,
    Greater,
    GreaterEqual,
    IsIn,
    NotIn,
    Plus,
    Minus,
    Times,
}

/// Expressions in order.
#[cycle(tree)]
#[derive(Drop)]
pub struct Exprs {
    pub list: Vec<Expr>,
}

/// The parts of a template in order.
#[cycle(tree)]
#[derive(Drop)]
pub struct Parts {
    pub list: Vec<Part>,
}

/// The items of a dictionary in order.
#[cycle(tree)]
#[derive(Drop)]
pub struct DictItems {
    pub list: Vec<DictItem>,
}

/// Statements in order.
#[cycle(tree)]
#[derive(Drop)]
pub struct Stmts {
    pub list: Vec<Stmt>,
}

/// A key and its value.
#[cycle(tree)]
#[derive(Drop)]
pub struct DictItem {
    pub key: Expr,
    pub value: Expr,
}

/// A part of a template: characters, or an expression in braces.
#[cycle(tree)]
#[derive(Drop)]
pub enum Part {
    Text(HogText),
    Hole(Expr),
}

/// What stands after an arrow.
#[cycle(tree)]
#[derive(Drop)]
pub enum ArrowBody {
    One(Box<Expr>),
    Block(Stmts),
}

/// An expression.
#[cycle(tree)]
#[derive(Drop)]
pub enum Expr {
    Int(i64),
    Bool(bool),
    Null,
    Text(HogText),
    Template(Parts),
    Name(Named),
    Array(Exprs),
    Dict(DictItems),
    Neg(Box<Expr>),
    Not(Box<Expr>),
    Binary(BinaryOp, Box<Expr>, Box<Expr>),
    Coalesce(Box<Expr>, Box<Expr>),
    Prop(Box<Expr>, HogText),
    PropNullish(Box<Expr>, HogText),
    Index(Box<Expr>, Box<Expr>),
    Call(Box<Expr>, Exprs),
    Lambda(Names, ArrowBody),
}

/// A function with a name.
#[cycle(tree)]
#[derive(Drop)]
pub struct FunTree {
    pub name: Named,
    pub params: Names,
    pub body: Stmts,
}

/// A statement.
#[cycle(tree)]
#[derive(Drop)]
pub enum Stmt {
    Let(Named, Option<Expr>),
    Assign(Expr, Expr),
    Do(Expr),
    Return(Option<Expr>),
    Throw(Expr),
    If(Expr, Stmts, Option<Stmts>),
    While(Expr, Stmts),
    /// Start, condition, step and block.
    For(Option<Box<Stmt>>, Option<Expr>, Option<Box<Stmt>>, Stmts),
    /// Name of the key, name of the value, what is run over, and block.
    ForIn(Option<Named>, Named, Expr, Stmts),
    Fun(FunTree),
    /// Block, name of what is caught, and its block.
    Try(Stmts, Named, Stmts),
    Block(Stmts),
}

/// A program.
#[derive(Drop)]
pub struct Tree {
    pub stmts: Stmts,
}
