//! Trees as texts.

use oc_parser::ParseFault;
use oc_source::Spot;
use oc_source::parsed::*;
use oc_values::{Boxed, Items, Name};
use std::alloc::{AllocError, Global};

/// A text that grows at its end, unless memory was wanting.
#[derive(Debug, Drop)]
pub struct Text {
    pub alloc: Global,
    pub text: String,
    pub full: bool,
}

impl Text {
    /// An empty text.
    pub fn new(alloc: Global) -> Text {
        Text {
            alloc,
            text: String::new(alloc),
            full: false,
        }
    }

    fn put(&mut self, part: &str) {
        if self.text.push_str(part).is_err() {
            self.full = true;
        }
    }

    fn join(&mut self, part: Result<String, AllocError>) {
        match part {
            Ok(part) => self.put(part.as_str()),
            Err(_) => self.full = true,
        }
    }
}

fn put_spot(out: &mut Text, spot: Spot) {
    out.join(format!(in out.alloc; "({}:{} ", spot.line, spot.column));
}

fn put_name(out: &mut Text, name: &Name) {
    for byte in name.as_bytes() {
        if out.text.push(char::from(*byte)).is_err() {
            out.full = true;
        }
    }
}

fn put_base(out: &mut Text, base: &BaseName) {
    let spot = base.spot;
    out.join(format!(in out.alloc;
        "{}:{} {} {} ",
        spot.line, spot.column, base.frozen, base.obliv
    ));
    match &base.kind {
        BaseKind::Int(kind) => out.join(format!(in out.alloc; "{kind:?}")),
        BaseKind::Struct(name) => put_name(out, name),
    }
}

fn put_type(out: &mut Text, ty: &TypeName) {
    out.put("(");
    put_base(out, &ty.base);
    out.join(format!(in out.alloc; " {})", ty.stars));
}

fn put_field(out: &mut Text, field: &FieldDef) {
    put_spot(out, field.spot);
    put_name(out, &field.name);
    out.put(" ");
    put_base(out, &field.base);
    let dims = field.dims.as_slice();
    out.join(format!(in out.alloc; " {} {dims:?})", field.stars));
}

#[cycle(exprs)]
fn put_expr(out: &mut Text, expr: &Expr) {
    put_spot(out, expr.spot);
    put_node(out, &expr.node);
    out.put(")");
}

#[cycle(exprs)]
fn put_args(out: &mut Text, args: &Items<Expr>) {
    for arg in args.as_slice() {
        put_expr(out, arg);
    }
}

#[cycle(exprs)]
fn put_node(out: &mut Text, node: &ExprNode) {
    match node {
        ExprNode::Number(literal) => {
            out.join(format!(in out.alloc; "{:?} {}", literal.kind, literal.value));
        }
        ExprNode::NullPointer => out.put("NULL"),
        ExprNode::Text(text) => {
            out.put("text ");
            put_name(out, text);
        }
        ExprNode::Named(name) => put_name(out, name),
        ExprNode::Unary { op, part } => {
            out.join(format!(in out.alloc; "{op:?} "));
            put_expr(out, part.get());
        }
        ExprNode::Bump { up, before, part } => {
            out.join(format!(in out.alloc; "Bump {up} {before} "));
            put_expr(out, part.get());
        }
        ExprNode::Binary { op, left, right } => {
            out.join(format!(in out.alloc; "{op:?} "));
            put_expr(out, left.get());
            out.put(" ");
            put_expr(out, right.get());
        }
        ExprNode::Logic { all, left, right } => {
            out.join(format!(in out.alloc; "Logic {all} "));
            put_expr(out, left.get());
            out.put(" ");
            put_expr(out, right.get());
        }
        ExprNode::Choose { cond, yes, no } => {
            out.put("Choose ");
            put_expr(out, cond.get());
            out.put(" ");
            put_expr(out, yes.get());
            out.put(" ");
            put_expr(out, no.get());
        }
        ExprNode::Assign { op, left, right } => {
            out.join(format!(in out.alloc; "Assign {op:?} "));
            put_expr(out, left.get());
            out.put(" ");
            put_expr(out, right.get());
        }
        ExprNode::Index { part, amount } => {
            out.put("Index ");
            put_expr(out, part.get());
            out.put(" ");
            put_expr(out, amount.get());
        }
        ExprNode::Field { part, name } => {
            out.put("Field ");
            put_expr(out, part.get());
            out.put(" ");
            put_name(out, name);
        }
        ExprNode::Arrow { part, name } => {
            out.put("Arrow ");
            put_expr(out, part.get());
            out.put(" ");
            put_name(out, name);
        }
        ExprNode::Call { name, args } => {
            out.put("Call ");
            put_name(out, name);
            out.put(" [");
            put_args(out, args);
            out.put("]");
        }
        ExprNode::Cast { to, part } => {
            out.put("Cast ");
            put_type(out, to);
            out.put(" ");
            put_expr(out, part.get());
        }
        ExprNode::SizeOf(ty) => {
            out.put("SizeOf ");
            put_type(out, ty);
        }
    }
}

fn put_perhaps(out: &mut Text, expr: &Option<Boxed<Expr>>) {
    match expr {
        Some(expr) => put_expr(out, expr.get()),
        None => out.put("-"),
    }
}

fn put_declared(out: &mut Text, declared: &Items<Declared>) {
    for one in declared.as_slice() {
        put_field(out, &one.field);
        put_perhaps(out, &one.init);
    }
}

fn put_init(out: &mut Text, init: &ForInit) {
    match init {
        ForInit::Nothing => out.put("Nothing"),
        ForInit::Declare(declared) => {
            out.put("Declare [");
            put_declared(out, declared);
            out.put("]");
        }
        ForInit::Express(expr) => {
            out.put("Express ");
            put_expr(out, expr.get());
        }
    }
}

#[cycle(stmts)]
fn put_stmt(out: &mut Text, stmt: &Stmt) {
    put_spot(out, stmt.spot);
    put_stmt_node(out, &stmt.node);
    out.put(")");
}

#[cycle(stmts)]
fn put_stmts(out: &mut Text, stmts: &Items<Stmt>) {
    for stmt in stmts.as_slice() {
        put_stmt(out, stmt);
    }
}

#[cycle(stmts)]
fn put_else(out: &mut Text, no: &Option<Boxed<Stmt>>) {
    match no {
        Some(no) => put_stmt(out, no.get()),
        None => out.put("-"),
    }
}

#[cycle(stmts)]
fn put_stmt_node(out: &mut Text, node: &StmtNode) {
    match node {
        StmtNode::Declare(declared) => {
            out.put("Declare [");
            put_declared(out, declared);
            out.put("]");
        }
        StmtNode::Express(expr) => {
            out.put("Express ");
            put_expr(out, expr.get());
        }
        StmtNode::Block(stmts) => {
            out.put("Block [");
            put_stmts(out, stmts);
            out.put("]");
        }
        StmtNode::If { cond, yes, no } => {
            out.put("If ");
            put_expr(out, cond.get());
            out.put(" ");
            put_stmt(out, yes.get());
            out.put(" ");
            put_else(out, no);
        }
        StmtNode::OblivIf { cond, yes, no } => {
            out.put("OblivIf ");
            put_expr(out, cond.get());
            out.put(" ");
            put_stmt(out, yes.get());
            out.put(" ");
            put_else(out, no);
        }
        StmtNode::Always { name, body } => {
            out.put("Always ");
            put_name(out, name);
            out.put(" ");
            put_stmt(out, body.get());
        }
        StmtNode::While { cond, body } => {
            out.put("While ");
            put_expr(out, cond.get());
            out.put(" ");
            put_stmt(out, body.get());
        }
        StmtNode::For {
            init,
            cond,
            advance,
            body,
        } => {
            out.put("For ");
            put_init(out, init);
            out.put(" ");
            put_perhaps(out, cond);
            out.put(" ");
            put_perhaps(out, advance);
            out.put(" ");
            put_stmt(out, body.get());
        }
        StmtNode::Return(value) => {
            out.put("Return ");
            put_perhaps(out, value);
        }
        StmtNode::Break => out.put("Break"),
        StmtNode::Continue => out.put("Continue"),
        StmtNode::Empty => out.put("Empty"),
    }
}

fn put_struct(out: &mut Text, found: &StructDef) {
    out.put("struct ");
    put_spot(out, found.spot);
    put_name(out, &found.name);
    out.put(" [");
    for field in found.fields.as_slice() {
        put_field(out, field);
    }
    out.put("])");
}

fn put_params(out: &mut Text, params: &Items<Param>) {
    for param in params.as_slice() {
        put_spot(out, param.spot);
        put_name(out, &param.name);
        out.put(" ");
        put_base(out, &param.base);
        out.join(format!(in out.alloc; " {} {:?})", param.stars, param.array));
    }
}

fn put_function(out: &mut Text, function: &Function) {
    out.put("function ");
    put_spot(out, function.spot);
    put_name(out, &function.name);
    out.put(" ");
    match &function.result {
        Some(ty) => put_type(out, ty),
        None => out.put("void"),
    }
    out.put(" [");
    put_params(out, &function.params);
    out.join(format!(in out.alloc; "] {} ", function.obliv));
    match &function.body {
        Some(stmts) => put_stmts(out, stmts),
        None => out.put("-"),
    }
    out.put(")");
}

/// Appends the tree of a source.
pub fn put_program(out: &mut Text, program: &Program) {
    for found in program.structs.as_slice() {
        put_struct(out, found);
    }
    for function in program.functions.as_slice() {
        put_function(out, function);
    }
    let end = program.end;
    out.join(format!(in out.alloc; "end {}:{}", end.line, end.column));
}

/// Appends why a source has no tree.
pub fn put_fault(out: &mut Text, fault: &ParseFault) {
    match fault {
        ParseFault::Refused { rule, spot } => {
            out.join(format!(in out.alloc; "{rule:?} {}:{}", spot.line, spot.column));
        }
        ParseFault::NoMemory => out.put("memory"),
    }
}
