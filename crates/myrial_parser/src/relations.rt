//! Keys, operands, relation expressions and statements.
ghost use Rattle.std.specs.Prelude.{◌≡◌, List, map, option_map};
ghost use Rattle.myrial_ast.specs.Trees.{EmitTree, tree_of, emit_tree_of, rel_tree_of, statement_tree_of};
ghost use Rattle.myrial_parser.specs.Grammar as grammar;
ghost use Rattle.rel_base.specs.declared.relations.Column.{Column as ColumnSeen};
ghost use Rattle.myrial_ast.specs.declared.relations.FromItem.{FromItem as ItemSeen};
ghost use Rattle.myrial_ast.specs.declared.relations.LoadForm.{LoadForm as FormSeen};
ghost use Rattle.myrial_parser.specs.declared.loads.Load.{Load as LoadSeen};
ghost use Rattle.myrial_parser.specs.inner.Descent as spec;
ghost use Rattle.myrial_parser.specs.inner.Descent.{Parses};

use crate::cursor::Cursor;
use crate::faults::Refusal;
use crate::loads::Load;
use crate::separated::Phrase;
use crate::terminals::{Keyword, Symbol, Terminal, same_word};
use myrial_ast::{EmitItem, EmitItems, Expr, FromItem, LoadForm, Operand, RelExpr, Stmt};
use myrial_lexer::Sign;
use rel_base::{ColType, Column, Duplicate, Key, Schema, Text};
use std::alloc::Global;

/// The type that a word names, in any case.
fn type_of(word: &str) -> Option<ColType>
    ensures { result ≡ grammar.type_of word.now }
{
    let word = word.as_bytes();
    if same_word(word, b"int") || same_word(word, b"long") {
        Some(ColType::Int)
    } else if same_word(word, b"string") {
        Some(ColType::Str)
    } else if same_word(word, b"boolean") {
        Some(ColType::Bool)
    } else {
        None
    }
}

/// The name of an operand, the last name of its key, or the name of its file.
fn own_name(source: &Operand) -> &Text
    ensures { result.now ≡ grammar.own_name source.now }
{
    match source {
        Operand::Named(name) => name,
        Operand::Scan(key) => &key.name,
        Operand::Load(file, _, _) => file,
    }
}

impl Phrase for Column {
    ghost Tree = { ColumnSeen };

    ghost tree_of = { λ column. column };

    ghost parser = { spec.column_definition };

    fn read(cursor: &mut Cursor<'_>, alloc: Global) -> Result<Column, Refusal> {
        cursor.column_definition(alloc)
    }
}

impl Phrase for Schema {
    ghost Tree = { List ColumnSeen };

    ghost tree_of = { λ columns. columns };

    ghost parser = { spec.separated spec.column_definition };

    fn read(cursor: &mut Cursor<'_>, alloc: Global) -> Result<Schema, Refusal> {
        cursor.separated(alloc)
    }
}

impl Phrase for LoadForm {
    ghost Tree = { FormSeen };

    ghost tree_of = { λ form. form };

    ghost parser = { spec.form };

    #[tactic(auto, unfolding(crate::specs::inner::Descent::form))]
    fn read(cursor: &mut Cursor<'_>, alloc: Global) -> Result<LoadForm, Refusal> {
        let schema = cursor.called(alloc, b"schema")?;
        let skip = cursor.records_to_skip()?;
        Ok(LoadForm { schema, skip })
    }
}

impl Phrase for Load {
    ghost Tree = { LoadSeen };

    ghost tree_of = { λ load. load };

    ghost parser = { spec.load };

    #[tactic(auto, unfolding(crate::specs::inner::Descent::load))]
    fn read(cursor: &mut Cursor<'_>, alloc: Global) -> Result<Load, Refusal> {
        let file = cursor.quoted(alloc)?;
        cursor.expect(Symbol::Sign(Sign::Comma))?;
        let form = cursor.called(alloc, b"csv")?;
        Ok(Load { file, form })
    }
}

impl Phrase for FromItem {
    ghost Tree = { ItemSeen };

    ghost tree_of = { λ item. item };

    ghost parser = { spec.item };

    fn read(cursor: &mut Cursor<'_>, alloc: Global) -> Result<FromItem, Refusal> {
        cursor.item(alloc)
    }
}

impl Phrase for EmitItem {
    ghost Tree = { EmitTree };

    ghost tree_of = { emit_tree_of };

    ghost parser = { spec.emit };

    fn read(cursor: &mut Cursor<'_>, alloc: Global) -> Result<EmitItem, Refusal> {
        cursor.emit(alloc)
    }
}

impl Cursor<'_> {
    /// A key: its name, behind a program and behind a user where they are given.
    #[tactic(auto, unfolding(crate::specs::inner::Descent::key))]
    fn key(&mut self, alloc: Global) -> Result<Key, Refusal>
        ensures { Parses (λ x. x) (spec.key self.old) result self.new }
    {
        let first = self.name(alloc)?;
        self.key_behind(alloc, first)
    }

    /// A key behind its first name.
    fn key_behind(&mut self, alloc: Global, first: Text) -> Result<Key, Refusal>
        ensures { Parses (λ x. x) (spec.key_behind first self.old) result self.new }
    {
        if self.eat(Symbol::Sign(Sign::Colon)) {
            let second = self.name(alloc)?;
            return self.key_behind_two(alloc, first, second);
        }
        let user = Text::of(alloc, "public")?;
        let program = Text::of(alloc, "adhoc")?;
        Ok(Key {
            user,
            program,
            name: first,
        })
    }

    /// A key behind its first two names.
    fn key_behind_two(&mut self, alloc: Global, first: Text, second: Text) -> Result<Key, Refusal>
        ensures { Parses (λ x. x) (spec.key_behind_two first second self.old) result self.new }
    {
        if self.eat(Symbol::Sign(Sign::Colon)) {
            let name = self.name(alloc)?;
            return Ok(Key {
                user: first,
                program: second,
                name,
            });
        }
        let user = Text::of(alloc, "public")?;
        Ok(Key {
            user,
            program: first,
            name: second,
        })
    }

    /// A relation by its name, by its key, or of a file without a header.
    #[tactic(auto, unfolding(crate::specs::inner::Descent::source))]
    fn source(&mut self, alloc: Global) -> Result<Operand, Refusal>
        ensures { Parses (λ x. x) (spec.source self.old) result self.new }
    {
        if self.eat(Symbol::Keyword(Keyword::Scan)) {
            self.expect(Symbol::Sign(Sign::OpenParen))?;
            let key = self.key(alloc)?;
            self.expect(Symbol::Sign(Sign::CloseParen))?;
            return Ok(Operand::Scan(key));
        }
        if self.sees_load() {
            let Load { file, form } = self.called(alloc, b"load")?;
            return Ok(Operand::Load(file, form.schema, form.skip));
        }
        Ok(Operand::Named(self.name(alloc)?))
    }

    /// Whether the word `load` comes next, and a parenthesis behind it; elsewhere it is a name.
    fn sees_load(&self) -> bool
        ensures { result ≡ spec.sees_load self.now }
    {
        self.sees_word(b"load") && self.sees_behind(1, Symbol::Sign(Sign::OpenParen))
    }

    /// How many records are passed over: none where nothing is said.
    #[tactic(auto, unfolding(crate::specs::inner::Descent::skip))]
    fn records_to_skip(&mut self) -> Result<u64, Refusal>
        ensures { Parses (λ x. x) (spec.skip self.old) result self.new }
    {
        if !self.eat(Symbol::Sign(Sign::Comma)) {
            return Ok(0);
        }
        self.word(b"skip")?;
        self.expect(Symbol::Sign(Sign::Eq))?;
        self.number()
    }

    /// The type that comes next.
    fn kind(&mut self) -> Result<ColType, Refusal>
        ensures { Parses (λ x. x) (spec.kind self.old) result self.new }
    {
        let Some(Terminal::Name(word)) = self.peek() else {
            return Err(Refusal::Syntax);
        };
        let Some(kind) = type_of(word) else {
            return Err(Refusal::Syntax);
        };
        self.skip();
        Ok(kind)
    }

    /// A column of `empty`: its name and its type.
    #[tactic(auto, unfolding(crate::specs::inner::Descent::column_definition))]
    fn column_definition(&mut self, alloc: Global) -> Result<Column, Refusal>
        ensures { Parses (λ x. x) (spec.column_definition self.old) result self.new }
    {
        let name = self.name(alloc)?;
        self.expect(Symbol::Sign(Sign::Colon))?;
        let kind = self.kind()?;
        Ok(Column { name, kind })
    }

    /// The two operands of `unionall` and `diff`.
    #[tactic(auto, unfolding(crate::specs::inner::Descent::two_sources))]
    fn two_sources(&mut self, alloc: Global) -> Result<(Operand, Operand), Refusal>
        ensures { Parses (λ x. x) (spec.two_sources self.old) result self.new }
    {
        let left = self.source(alloc)?;
        self.expect(Symbol::Sign(Sign::Comma))?;
        let right = self.source(alloc)?;
        Ok((left, right))
    }

    /// A name behind `as`, where there is one.
    fn name_behind_as(&mut self, alloc: Global) -> Result<Option<Text>, Refusal>
        ensures { Parses (λ x. x) (spec.name_behind_as self.old) result self.new }
    {
        if self.eat(Symbol::Keyword(Keyword::As)) {
            return Ok(Some(self.name(alloc)?));
        }
        Ok(None)
    }

    /// An item of a comprehension. Its alias is its operand's own name where none is given.
    #[tactic(auto, unfolding(crate::specs::inner::Descent::item))]
    fn item(&mut self, alloc: Global) -> Result<FromItem, Refusal>
        ensures { Parses (λ x. x) (spec.item self.old) result self.new }
    {
        let source = self.source(alloc)?;
        let alias = match self.name_behind_as(alloc)? {
            Some(alias) => alias,
            None => own_name(&source).copy(alloc)?,
        };
        Ok(FromItem { source, alias })
    }

    /// An expression that nests no deeper than there are terminals ahead.
    #[tactic(auto, unfolding(crate::specs::inner::Descent::whole_expression))]
    fn whole_expression(&mut self, alloc: Global) -> Result<Expr, Refusal>
        ensures { Parses tree_of (spec.whole_expression self.old) result self.new }
    {
        self.expression(alloc, self.left() + 1)
    }

    /// The condition of a comprehension, where there is one.
    #[tactic(auto, unfolding(crate::specs::inner::Descent::condition))]
    fn condition(&mut self, alloc: Global) -> Result<Option<Expr>, Refusal>
        ensures { Parses (option_map tree_of) (spec.condition self.old) result self.new }
    {
        if self.eat(Symbol::Keyword(Keyword::Where)) {
            return Ok(Some(self.whole_expression(alloc)?));
        }
        Ok(None)
    }

    /// An expression that is emitted, with a name where one is given.
    #[tactic(auto, unfolding(crate::specs::inner::Descent::emitted))]
    fn emitted(&mut self, alloc: Global) -> Result<EmitItem, Refusal>
        ensures { Parses emit_tree_of (spec.emitted self.old) result self.new }
    {
        let expression = self.whole_expression(alloc)?;
        let name = self.name_behind_as(alloc)?;
        Ok(EmitItem::One(expression, name))
    }

    /// The alias of an item all of whose columns are emitted, and the dot and the star behind it.
    #[tactic(auto, unfolding(crate::specs::inner::Descent::emitted_alias))]
    fn emitted_alias(&mut self, alloc: Global) -> Result<EmitItem, Refusal>
        ensures { Parses emit_tree_of (spec.emitted_alias self.old) result self.new }
    {
        let alias = self.name(alloc)?;
        self.skip();
        self.skip();
        Ok(EmitItem::AllOf(alias))
    }

    /// What a comprehension emits: all columns, those of an alias, or an expression.
    #[tactic(auto, unfolding(crate::specs::inner::Descent::emit))]
    fn emit(&mut self, alloc: Global) -> Result<EmitItem, Refusal>
        ensures { Parses emit_tree_of (spec.emit self.old) result self.new }
    {
        if self.eat(Symbol::Sign(Sign::Star)) {
            return Ok(EmitItem::All);
        }
        if self.sees_behind(1, Symbol::Sign(Sign::Dot))
            && self.sees_behind(2, Symbol::Sign(Sign::Star))
        {
            return self.emitted_alias(alloc);
        }
        self.emitted(alloc)
    }

    /// What a comprehension in brackets emits, up to the closing bracket.
    #[tactic(auto, unfolding(crate::specs::inner::Descent::bracketed_emits))]
    fn bracketed_emits(&mut self, alloc: Global) -> Result<EmitItems, Refusal>
        ensures { Parses (map emit_tree_of) (spec.bracketed_emits self.old) result self.new }
    {
        self.expect(Symbol::Keyword(Keyword::Emit))?;
        let emits = self.separated(alloc)?;
        self.expect(Symbol::Sign(Sign::CloseBracket))?;
        Ok(emits)
    }

    /// A comprehension behind its opening bracket.
    #[tactic(auto, unfolding(crate::specs::inner::Descent::comprehension))]
    fn comprehension(&mut self, alloc: Global) -> Result<RelExpr, Refusal>
        ensures { Parses rel_tree_of (spec.comprehension self.old) result self.new }
    {
        self.expect(Symbol::Keyword(Keyword::From))?;
        let items = self.separated(alloc)?;
        let condition = self.condition(alloc)?;
        let emits = self.bracketed_emits(alloc)?;
        Ok(RelExpr::From(items, condition, emits))
    }

    /// An operand as a relation.
    fn copied(&mut self, alloc: Global) -> Result<RelExpr, Refusal>
        ensures { Parses rel_tree_of (spec.copied self.old) result self.new }
    {
        Ok(RelExpr::Copy(self.source(alloc)?))
    }

    /// A relation expression.
    #[tactic(auto, unfolding(crate::specs::inner::Descent::relation))]
    fn relation(&mut self, alloc: Global) -> Result<RelExpr, Refusal>
        ensures { Parses rel_tree_of (spec.relation self.old) result self.new }
    {
        match self.symbol() {
            Some(Symbol::Sign(Sign::OpenBracket)) => {
                self.skip();
                self.comprehension(alloc)
            }
            Some(Symbol::Keyword(Keyword::Scan)) => self.copied(alloc),
            Some(Symbol::Keyword(word)) => {
                self.skip();
                self.call(alloc, word)
            }
            _ => self.unmarked(alloc),
        }
    }

    /// A comprehension behind the word `select`, or an operand.
    fn unmarked(&mut self, alloc: Global) -> Result<RelExpr, Refusal>
        ensures { Parses rel_tree_of (spec.unmarked self.old) result self.new }
    {
        if self.sees_select() {
            self.skip();
            return self.selection(alloc);
        }
        self.copied(alloc)
    }

    /// Whether the word `select` comes next, and something behind it; alone it is a name.
    #[tactic(auto, unfolding(crate::specs::inner::Descent::sees_select))]
    fn sees_select(&self) -> bool
        ensures { result ≡ spec.sees_select self.now }
    {
        self.sees_word(b"select") && self.left() > 1
    }

    /// A comprehension behind the word `select`.
    #[tactic(auto, unfolding(crate::specs::inner::Descent::selection))]
    fn selection(&mut self, alloc: Global) -> Result<RelExpr, Refusal>
        ensures { Parses rel_tree_of (spec.selection self.old) result self.new }
    {
        let emits = self.separated(alloc)?;
        self.expect(Symbol::Keyword(Keyword::From))?;
        let items = self.separated(alloc)?;
        let condition = self.condition(alloc)?;
        Ok(RelExpr::From(items, condition, emits))
    }

    /// What stands behind a word, in parentheses.
    fn call(&mut self, alloc: Global, word: Keyword) -> Result<RelExpr, Refusal>
        ensures { Parses rel_tree_of (spec.in_parens (spec.argument word) self.old) result self.new }
    {
        self.expect(Symbol::Sign(Sign::OpenParen))?;
        let relation = self.argument(alloc, word)?;
        self.expect(Symbol::Sign(Sign::CloseParen))?;
        Ok(relation)
    }

    /// What stands in the parentheses of a word.
    #[tactic(auto, unfolding(crate::specs::inner::Descent::argument))]
    fn argument(&mut self, alloc: Global, word: Keyword) -> Result<RelExpr, Refusal>
        ensures { Parses rel_tree_of (spec.argument word self.old) result self.new }
    {
        match word {
            Keyword::Empty => Ok(RelExpr::Empty(self.separated(alloc)?)),
            Keyword::Distinct => Ok(RelExpr::Distinct(self.source(alloc)?)),
            Keyword::UnionAll => {
                let (left, right) = self.two_sources(alloc)?;
                Ok(RelExpr::UnionAll(left, right))
            }
            Keyword::Diff => {
                let (left, right) = self.two_sources(alloc)?;
                Ok(RelExpr::Diff(left, right))
            }
            _ => Err(Refusal::Syntax),
        }
    }

    /// A name, the sign `=` and a relation expression.
    #[tactic(auto, unfolding(crate::specs::inner::Descent::assignment))]
    fn assignment(&mut self, alloc: Global) -> Result<Stmt, Refusal>
        ensures { Parses statement_tree_of (spec.assignment self.old) result self.new }
    {
        let name = self.name(alloc)?;
        self.expect(Symbol::Sign(Sign::Eq))?;
        let relation = self.relation(alloc)?;
        Ok(Stmt::Assign(name, relation))
    }

    /// What stands behind `store`: a name and a key in parentheses.
    #[tactic(auto, unfolding(crate::specs::inner::Descent::store))]
    fn store(&mut self, alloc: Global) -> Result<Stmt, Refusal>
        ensures { Parses statement_tree_of (spec.store self.old) result self.new }
    {
        self.expect(Symbol::Sign(Sign::OpenParen))?;
        let name = self.name(alloc)?;
        self.expect(Symbol::Sign(Sign::Comma))?;
        let key = self.key(alloc)?;
        self.expect(Symbol::Sign(Sign::CloseParen))?;
        Ok(Stmt::Store(name, key))
    }

    /// A statement that isn't empty.
    fn action(&mut self, alloc: Global) -> Result<Stmt, Refusal>
        ensures { Parses statement_tree_of (spec.action self.old) result self.new }
    {
        if self.eat(Symbol::Keyword(Keyword::Store)) {
            self.store(alloc)
        } else {
            self.assignment(alloc)
        }
    }

    /// A statement that goes on to the end.
    #[tactic(auto, unfolding(crate::specs::inner::Descent::statement))]
    pub fn statement(&mut self, alloc: Global) -> Result<Stmt, Refusal>
        ensures { Parses statement_tree_of (spec.statement self.old) result self.new }
    {
        if self.left() == 0 {
            return Ok(Stmt::Nothing);
        }
        let statement = self.action(alloc)?;
        self.end()?;
        Ok(statement)
    }
}
