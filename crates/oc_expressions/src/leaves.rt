//! Expressions of one token, and nodes.

ghost use Rattle.std.specs.Prelude.{◌≡◌, MatchOption, IfOk};
ghost use Rattle.oc_source.specs.declared.parsed.Expr.{Expr};
ghost use Rattle.oc_source.specs.declared.parsed.ExprNode.{ExprNode};
ghost use Rattle.oc_source.specs.Parsed.{expr};
ghost use Rattle.oc_grammar.specs.Trees.{prefixed as prefixed_node, infixed as infixed_node, Leaf};
ghost use Rattle.oc_expressions.specs.Continuations.{LeafOf};

use oc_grammar::tables::{Infix, Prefix};
use oc_lexer::{Keyword, Token, TokenKind};
use oc_source::parsed::{Expr, ExprNode};
use oc_source::{Literal, Spot};
use oc_values::{Boxed, IntKind, NoMemory};
use std::alloc::{AllocError, Global};

/// A node at a spot.
pub fn boxed(alloc: Global, spot: Spot, node: ExprNode) -> Result<Boxed<Expr>, AllocError>
    ensures { IfOk result (λ made. made ≡ expr spot node) }
{
    Boxed::new(alloc, Expr { spot, node })
}

/// An operand after a sign.
pub fn prefixed(
    alloc: Global,
    spot: Spot,
    prefix: Prefix,
    part: Boxed<Expr>,
) -> Result<Boxed<Expr>, AllocError>
    ensures { IfOk result (λ made. made ≡ expr spot (prefixed_node prefix part)) }
{
    match prefix {
        Prefix::Unary(op) => boxed(alloc, spot, ExprNode::Unary { op, part }),
        Prefix::Bump(up) => {
            let node = ExprNode::Bump {
                up,
                before: true,
                part,
            };
            boxed(alloc, spot, node)
        }
    }
}

/// Two operands with a sign between them.
pub fn infixed(
    alloc: Global,
    spot: Spot,
    operator: Infix,
    left: Boxed<Expr>,
    right: Boxed<Expr>,
) -> Result<Boxed<Expr>, AllocError>
    ensures { IfOk result (λ made. made ≡ expr spot (infixed_node operator left right)) }
{
    match operator {
        Infix::Binary(op) => boxed(alloc, spot, ExprNode::Binary { op, left, right }),
        Infix::Logic(all) => boxed(alloc, spot, ExprNode::Logic { all, left, right }),
    }
}

// A small number, of the kind of a character.
fn small(value: u8) -> Literal
    ensures kind { result.kind ≡ IntKind.I32 }
    ensures value { result.value ≡ value }
{
    Literal {
        kind: IntKind::I32,
        value: u64::from(value),
    }
}

// The expression that a keyword is by itself.
fn word_node(word: Keyword) -> Option<ExprNode>
    ensures { MatchOption result ((node : ExprNode) → Leaf (TokenKind.Keyword word) node → ⊥) (λ node. Leaf (TokenKind.Keyword word) node) }
{
    match word {
        Keyword::Null => Some(ExprNode::NullPointer),
        Keyword::True => Some(ExprNode::Number(small(1))),
        Keyword::False => Some(ExprNode::Number(small(0))),
        _ => None,
    }
}

// The expression that a token is by itself.
fn leaf_node(kind: &TokenKind) -> Result<Option<ExprNode>, NoMemory>
    ensures { IfOk result (λ found. MatchOption found ((node : ExprNode) → Leaf kind.now node → ⊥) (λ node. Leaf kind.now node)) }
{
    match kind {
        TokenKind::Number(literal) => Ok(Some(ExprNode::Number(*literal))),
        TokenKind::Character(byte) => Ok(Some(ExprNode::Number(small(*byte)))),
        TokenKind::Text(text) => {
            let text = text.share()?;
            Ok(Some(ExprNode::Text(text)))
        }
        TokenKind::Keyword(word) => Ok(word_node(*word)),
        TokenKind::Name(_) | TokenKind::Sign(_) => Ok(None),
    }
}

/// The expression that a token is by itself: a number, a character, a text, `NULL`, `true` or `false`.
pub fn leaf(alloc: Global, token: &Token) -> Result<Option<Boxed<Expr>>, NoMemory>
    ensures { IfOk result (λ found. MatchOption found ((v : Expr) → LeafOf token.now v → ⊥) (λ made. LeafOf token.now made)) }
{
    match leaf_node(&token.kind)? {
        Some(node) => Ok(Some(boxed(alloc, token.spot, node)?)),
        None => Ok(None),
    }
}
