//! The typed tree, in which each name is a slot and each conversion a node.
//!
//! A node has the spot of the parsed node that it was made of; a conversion that the checker added has that of its part.
//! Numbers of functions and slots count from 0.

use oc_cells::{CType, SlotType};
use oc_source::Spot;
use oc_values::{BinaryOp, Boxed, IntKind, Items, Name, OneOp};

/// An expression with its type.
#[cycle(tree)]
#[derive(Debug, Drop)]
pub struct TExpr {
    pub spot: Spot,
    pub ty: CType,
    pub node: TExprNode,
}

/// What an expression is, with its parts.
#[cycle(tree)]
#[derive(Debug, Drop)]
pub enum TExprNode {
    /// A public integer, which is a value of the kind of its type.
    Number(i128),
    /// Its type is a pointer to nothing; a `Convert` makes it another pointer.
    NullPointer,
    /// What a place holds; of a struct, where it stands.
    Read(TPlace),
    /// Where a place stands.
    AddressOf(TPlace),
    /// Where an array's first element stands.
    Decay(TPlace),
    Unary {
        op: OneOp,
        part: Boxed<TExpr>,
    },
    /// Both operands have one kind; a shift's right operand has its own.
    Binary {
        op: BinaryOp,
        left: Boxed<TExpr>,
        right: Boxed<TExpr>,
    },
    /// A pointer moved by elements, forward or `back`; `amount_first` where the amount stands before the pointer in the text.
    PointerStep {
        pointer: Boxed<TExpr>,
        amount: Boxed<TExpr>,
        back: bool,
        amount_first: bool,
    },
    /// Whether two pointers are the same, or where `negated` aren't.
    PointerSame {
        left: Boxed<TExpr>,
        right: Boxed<TExpr>,
        negated: bool,
    },
    /// `&&` where `all`, else `||`.
    Logic {
        all: bool,
        left: Boxed<TExpr>,
        right: Boxed<TExpr>,
    },
    /// `cond ? yes : no`.
    Choose {
        cond: Boxed<TExpr>,
        yes: Boxed<TExpr>,
        no: Boxed<TExpr>,
    },
    /// The value that is then in the place; of a struct, where it stands.
    Assign {
        place: TPlace,
        value: Boxed<TExpr>,
    },
    /// A compound assignment, `++` or `--`. Its value is what is then in the place, or where `old` what was there before.
    Update {
        op: BinaryOp,
        place: TPlace,
        value: Boxed<TExpr>,
        old: bool,
    },
    /// A conversion to the node's type. One that the checker added has the spot of its part.
    Convert(Boxed<TExpr>),
    /// A call of the function of this number.
    Call {
        function: u64,
        args: Items<TExpr>,
    },
    /// A call of the language's own.
    Builtin {
        which: Builtin,
        args: Items<TExpr>,
    },
}

/// A place with the type of what it holds.
#[cycle(tree)]
#[derive(Debug, Drop)]
pub struct TPlace {
    pub spot: Spot,
    pub ty: CType,
    pub node: TPlaceNode,
}

/// What a place is, with its parts.
#[cycle(tree)]
#[derive(Debug, Drop)]
pub enum TPlaceNode {
    /// The variable of a slot.
    Slot(u64),
    /// Where a pointer leads.
    Deref(Boxed<TExpr>),
    /// An element, counted from a pointer.
    Index {
        pointer: Boxed<TExpr>,
        amount: Boxed<TExpr>,
    },
    /// A field of a struct's place, so many cells from where the struct begins.
    Field {
        base: Boxed<TPlace>,
        offset: u32,
    },
}

/// A call of the language's own. What its text fixes stands here, a party as 1 or 2; its other arguments are parts of the node.
#[derive(Debug, Drop)]
pub enum Builtin {
    /// `ocPrivate(k)`, only as the argument of a `Feed`. Its node has the type of `k`, which it hands on.
    Private,
    /// `feedOblivX(v, p)`: a hidden value of the kind.
    Feed { kind: IntKind, party: u8 },
    /// `revealOblivX(&dst, src, 0)`: its arguments are the address and the hidden value.
    Reveal { kind: IntKind },
    /// `ocResult(src, p)`.
    Give { kind: IntKind, party: u8 },
    /// `ocPrivateCount(p)`.
    PrivateCount { party: u8 },
    /// `ocPublicCount()`.
    PublicCount,
    /// `ocPublic(k)`.
    PublicWord,
    /// `printf`, with one argument for each piece that isn't a text.
    Print { pieces: Items<PrintPiece> },
    /// `calloc(n, sizeof(T))`, whose type is a pointer to T.
    Calloc,
    /// `malloc(sizeof(T))` without an argument, `malloc(n * sizeof(T))` with n as its argument.
    Malloc,
    Free,
}

/// A piece of a `printf` format.
#[derive(Debug, Drop)]
pub enum PrintPiece {
    /// These bytes.
    Text(Name),
    /// In decimal, converted to this kind.
    Decimal(IntKind),
    /// The byte that is the argument modulo 256.
    Byte,
}

/// A variable that a declaration makes, with the spot of its name.
#[derive(Debug, Drop)]
pub struct TDeclared {
    pub spot: Spot,
    pub slot: u64,
    pub init: Option<Boxed<TExpr>>,
}

/// A statement.
#[cycle(statements)]
#[derive(Debug, Drop)]
pub struct TStmt {
    pub spot: Spot,
    pub node: TStmtNode,
}

/// What a statement is, with its parts.
#[cycle(statements)]
#[derive(Debug, Drop)]
pub enum TStmtNode {
    Declare(Items<TDeclared>),
    Express(Boxed<TExpr>),
    Block(Items<TStmt>),
    If {
        cond: Boxed<TExpr>,
        yes: Boxed<TStmt>,
        no: Option<Boxed<TStmt>>,
    },
    /// The checker converted the condition to hidden Bool.
    OblivIf {
        cond: Boxed<TExpr>,
        yes: Boxed<TStmt>,
        no: Option<Boxed<TStmt>>,
    },
    /// `~obliv(name) { .. }`, whose name has this slot.
    Always {
        slot: u64,
        body: Boxed<TStmt>,
    },
    While {
        cond: Boxed<TExpr>,
        body: Boxed<TStmt>,
    },
    For {
        init: TForInit,
        cond: Option<Boxed<TExpr>>,
        advance: Option<Boxed<TExpr>>,
        body: Boxed<TStmt>,
    },
    Return(Option<Boxed<TExpr>>),
    Break,
    Continue,
    Empty,
}

/// What the header of a `for` begins with.
#[derive(Debug, Drop)]
pub enum TForInit {
    Nothing,
    Declare(Items<TDeclared>),
    Express(Boxed<TExpr>),
}

/// A function. The first `params` slots are its parameters.
#[derive(Debug, Drop)]
pub struct TypedFunction {
    pub name: Name,
    pub result: CType,
    pub params: u64,
    pub slots: Items<SlotType>,
    pub obliv: bool,
    pub body: Items<TStmt>,
}
