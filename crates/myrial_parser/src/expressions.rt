//! Expressions, by recursive descent: a level of precedence each, the loosest first.
ghost use Rattle.std.specs.Prelude.{◌≡◌, ◌+◌, ◌<◌, ◌≤◌, ◌^◌, IfOk, drop, length};
ghost use Rattle.myrial_ast.specs.Trees.{tree_of};
ghost use Rattle.myrial_ast.specs.Trees as tree;
ghost use Rattle.myrial_parser.specs.Grammar as grammar;
ghost use Rattle.myrial_parser.specs.Terminals.{Fixed};
ghost use Rattle.myrial_parser.specs.inner.Descent as spec;
ghost use Rattle.myrial_parser.specs.inner.Descent.{Parses};

use crate::cursor::Cursor;
use crate::faults::Refusal;
use crate::terminals::{Keyword, Symbol, Terminal};
use myrial_ast::{AggOp, BinOp, ColRef, Expr};
use myrial_lexer::Sign;
use rel_base::{Memory, Text, Value};
use std::alloc::Global;

/// The operators that group from the left, the loosest first.
#[derive(Clone, Copy)]
pub enum Level {
    /// `or`.
    Disjunction,
    /// `and`.
    Conjunction,
    /// `+` and `-`.
    Sum,
    /// `*`.
    Product,
}

/// The operator that a symbol is between operands of a level.
fn operator_of(level: Level, symbol: Symbol) -> Option<BinOp>
    ensures { result ≡ spec.sign_at level (Fixed symbol) }
{
    match level {
        Level::Disjunction => match symbol {
            Symbol::Keyword(Keyword::Or) => Some(BinOp::Or),
            _ => None,
        },
        Level::Conjunction => match symbol {
            Symbol::Keyword(Keyword::And) => Some(BinOp::And),
            _ => None,
        },
        Level::Sum => match symbol {
            Symbol::Sign(Sign::Plus) => Some(BinOp::Add),
            Symbol::Sign(Sign::Minus) => Some(BinOp::Sub),
            _ => None,
        },
        Level::Product => match symbol {
            Symbol::Sign(Sign::Star) => Some(BinOp::Mul),
            _ => None,
        },
    }
}

/// The comparison that a symbol is.
fn comparison_of(symbol: Symbol) -> Option<BinOp>
    ensures { result ≡ grammar.comparison_sign (Fixed symbol) }
{
    match symbol {
        Symbol::Sign(Sign::Eq) => Some(BinOp::Eq),
        Symbol::Sign(Sign::Ne) => Some(BinOp::Ne),
        Symbol::Sign(Sign::Lt) => Some(BinOp::Lt),
        Symbol::Sign(Sign::Le) => Some(BinOp::Le),
        Symbol::Sign(Sign::Gt) => Some(BinOp::Gt),
        Symbol::Sign(Sign::Ge) => Some(BinOp::Ge),
        _ => None,
    }
}

/// The literal of a number behind a minus sign.
fn negative(number: u64) -> Expr
    requires { number < 2 ^ 63 }
    ensures { tree_of result ≡ spec.negative number }
{
    Expr::Lit(Value::Int(-(number as i64)))
}

/// The expression behind so many minus signs.
fn with_minuses(alloc: Global, count: usize, operand: Expr) -> Result<Expr, Memory>
    ensures { IfOk result (λ made. tree_of made ≡ spec.wrapped tree.Neg count (tree_of operand)) }
{
    let mut found = operand;
    for _turn in 0..count {
        found = Expr::minus(alloc, found)?;
    }
    Ok(found)
}

/// The expression behind so many `not`.
fn with_negations(alloc: Global, count: usize, operand: Expr) -> Result<Expr, Memory>
    ensures { IfOk result (λ made. tree_of made ≡ spec.wrapped tree.Not count (tree_of operand)) }
{
    let mut found = operand;
    for _turn in 0..count {
        found = Expr::negation(alloc, found)?;
    }
    Ok(found)
}

impl Cursor<'_> {
    /// Passes an operator of a level, if one comes next.
    fn operator(&mut self, level: Level) -> Option<BinOp>
        ensures found { result ≡ spec.operator_ahead (spec.sign_at level) self.old }
        ensures after { self.new ≡ spec.behind_operator result self.old }
    {
        let found = match self.symbol() {
            Some(symbol) => operator_of(level, symbol),
            None => None,
        };
        if found.is_some() {
            self.skip();
        }
        found
    }

    /// Passes a comparison, if one comes next.
    fn comparison_sign(&mut self) -> Option<BinOp>
        ensures found { result ≡ spec.operator_ahead grammar.comparison_sign self.old }
        ensures after { self.new ≡ spec.behind_operator result self.old }
    {
        let found = match self.symbol() {
            Some(symbol) => comparison_of(symbol),
            None => None,
        };
        if found.is_some() {
            self.skip();
        }
        found
    }

    /// Passes such symbols as long as they come, and tells how many they are.
    fn count_of(&mut self, symbol: Symbol) -> usize
        ensures count { result ≡ spec.count_ahead symbol self.old }
        ensures after { self.new ≡ drop result self.old }
        ensures bound { result < 2 ^ 63 }
    {
        let most = self.left();
        for count in 0..most {
            if !self.eat(symbol) {
                return count;
            }
        }
        most
    }

    /// An expression in which fewer than `depth` parentheses are open at one place.
    #[cycle(expression)]
    #[tactic(auto, unfolding(crate::specs::inner::Descent::expression))]
    pub fn expression(&mut self, alloc: Global, depth: usize) -> Result<Expr, Refusal>
        ensures { Parses tree_of (spec.expression depth self.old) result self.new }
    {
        if depth == 0 {
            return Err(Refusal::Syntax);
        }
        self.chain(alloc, depth - 1, Level::Disjunction)
    }

    /// Operands with operators of one level between them, grouped from the left.
    #[cycle(expression)]
    fn chain(&mut self, alloc: Global, depth: usize, level: Level) -> Result<Expr, Refusal>
        ensures { Parses tree_of (spec.chain_at (spec.expression depth) level self.old) result self.new }
    {
        let mut left = self.operand(alloc, depth, level)?;
        for _turn in 0..self.left() {
            let Some(op) = self.operator(level) else {
                return Ok(left);
            };
            let right = self.operand(alloc, depth, level)?;
            left = Expr::binary(alloc, op, left, right)?;
        }
        Ok(left)
    }

    /// An operand of a level.
    #[cycle(expression)]
    fn operand(&mut self, alloc: Global, depth: usize, level: Level) -> Result<Expr, Refusal>
        ensures { Parses tree_of (spec.operand_at (spec.expression depth) level self.old) result self.new }
    {
        match level {
            Level::Disjunction => self.chain(alloc, depth, Level::Conjunction),
            Level::Conjunction => self.negation(alloc, depth),
            Level::Sum => self.chain(alloc, depth, Level::Product),
            Level::Product => self.signed(alloc, depth),
        }
    }

    /// A comparison behind none or more `not`.
    #[cycle(expression)]
    fn negation(&mut self, alloc: Global, depth: usize) -> Result<Expr, Refusal>
        ensures { Parses tree_of (spec.negation (spec.expression depth) self.old) result self.new }
    {
        let count = self.count_of(Symbol::Keyword(Keyword::Not));
        let found = self.comparison(alloc, depth)?;
        Ok(with_negations(alloc, count, found)?)
    }

    /// A sum, or two with a comparison between them.
    #[cycle(expression)]
    #[tactic(auto, unfolding(crate::specs::inner::Descent::comparison))]
    fn comparison(&mut self, alloc: Global, depth: usize) -> Result<Expr, Refusal>
        ensures { Parses tree_of (spec.comparison (spec.expression depth) self.old) result self.new }
    {
        let left = self.chain(alloc, depth, Level::Sum)?;
        let Some(op) = self.comparison_sign() else {
            return Ok(left);
        };
        let right = self.chain(alloc, depth, Level::Sum)?;
        Ok(Expr::binary(alloc, op, left, right)?)
    }

    /// A primary behind none or more minus signs; the last one and a number behind it are one
    /// literal.
    #[cycle(expression)]
    fn signed(&mut self, alloc: Global, depth: usize) -> Result<Expr, Refusal>
        ensures { Parses tree_of (spec.signed (spec.expression depth) self.old) result self.new }
    {
        let count = self.count_of(Symbol::Sign(Sign::Minus));
        if count == 0 {
            return self.primary(alloc, depth);
        }
        self.behind_minuses(alloc, depth, count - 1)
    }

    /// What stands behind one more minus sign than `count`.
    #[cycle(expression)]
    fn behind_minuses(&mut self, alloc: Global, depth: usize, count: usize) -> Result<Expr, Refusal>
        requires { count < 2 ^ 63 }
        ensures { Parses tree_of
            (spec.signed_behind (spec.expression depth) (count + 1) (spec.first self.old) self.old)
            result self.new }
    {
        if let Some(Terminal::Number(number)) = self.peek() {
            self.skip();
            return Ok(with_minuses(alloc, count, negative(number))?);
        }
        let found = self.primary(alloc, depth)?;
        Ok(with_minuses(alloc, count + 1, found)?)
    }

    /// A literal, a column, an aggregate, or an expression in parentheses.
    #[cycle(expression)]
    #[tactic(auto, unfolding(crate::specs::inner::Descent::primary))]
    fn primary(&mut self, alloc: Global, depth: usize) -> Result<Expr, Refusal>
        ensures { Parses tree_of (spec.primary (spec.expression depth) self.old) result self.new }
    {
        let Some(next) = self.peek() else {
            return Err(Refusal::Syntax);
        };
        self.skip();
        match next {
            Terminal::Number(number) => Ok(Expr::Lit(Value::Int(number as i64))),
            Terminal::Quoted(text) => Ok(Expr::Lit(Value::Str(Text::of(alloc, text)?))),
            Terminal::Name(name) => {
                let name = Text::of(alloc, name)?;
                Ok(Expr::Col(self.column(alloc, name)?))
            }
            Terminal::Fixed(symbol) => self.fixed(alloc, depth, symbol),
        }
    }

    /// What stands behind the symbol that a primary begins with.
    #[cycle(expression)]
    fn fixed(&mut self, alloc: Global, depth: usize, symbol: Symbol) -> Result<Expr, Refusal>
        ensures { Parses tree_of (spec.fixed_by (spec.expression depth) symbol self.old) result self.new }
    {
        match symbol {
            Symbol::Keyword(Keyword::True) => Ok(Expr::Lit(Value::Bool(true))),
            Symbol::Keyword(Keyword::False) => Ok(Expr::Lit(Value::Bool(false))),
            Symbol::Keyword(word) => self.aggregate(alloc, depth, word),
            Symbol::Sign(Sign::Dollar) => Ok(Expr::Col(ColRef::ByPlace(self.number()?))),
            Symbol::Sign(Sign::OpenParen) => {
                let inner = self.expression(alloc, depth)?;
                self.expect(Symbol::Sign(Sign::CloseParen))?;
                Ok(inner)
            }
            Symbol::Sign(_) => Err(Refusal::Syntax),
        }
    }

    /// What stands behind the word of an aggregate, in parentheses.
    #[cycle(expression)]
    fn aggregate(&mut self, alloc: Global, depth: usize, word: Keyword) -> Result<Expr, Refusal>
        ensures { Parses tree_of
            (spec.in_parens (spec.aggregated (spec.expression depth) word) self.old) result
            self.new }
    {
        self.expect(Symbol::Sign(Sign::OpenParen))?;
        let found = self.aggregated(alloc, depth, word)?;
        self.expect(Symbol::Sign(Sign::CloseParen))?;
        Ok(found)
    }

    /// What stands in the parentheses of an aggregate: a star, nothing or an expression.
    #[cycle(expression)]
    fn aggregated(&mut self, alloc: Global, depth: usize, word: Keyword) -> Result<Expr, Refusal>
        ensures { Parses tree_of (spec.aggregated (spec.expression depth) word self.old) result self.new }
    {
        let op = match word {
            Keyword::CountAll => return Ok(Expr::Agg(AggOp::CountAll, None)),
            Keyword::Count => {
                if self.eat(Symbol::Sign(Sign::Star)) {
                    return Ok(Expr::Agg(AggOp::CountAll, None));
                }
                AggOp::Count
            }
            Keyword::Sum => AggOp::Sum,
            Keyword::Min => AggOp::Min,
            Keyword::Max => AggOp::Max,
            _ => return Err(Refusal::Syntax),
        };
        let argument = self.expression(alloc, depth)?;
        Ok(Expr::aggregate(alloc, op, argument)?)
    }

    /// What stands behind the first name of a column: nothing of its own, or a dot and a column of
    /// that alias.
    fn column(&mut self, alloc: Global, name: Text) -> Result<ColRef, Refusal>
        ensures { Parses (λ x. x) (spec.column_behind name self.old) result self.new }
    {
        if !self.eat(Symbol::Sign(Sign::Dot)) {
            return Ok(ColRef::ByName(name));
        }
        if self.eat(Symbol::Sign(Sign::Dollar)) {
            return Ok(ColRef::OfPlace(name, self.number()?));
        }
        Ok(ColRef::OfName(name, self.name(alloc)?))
    }
}
