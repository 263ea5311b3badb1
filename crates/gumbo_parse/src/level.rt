//! How tightly expressions bind.

ghost use Rattle.std.specs.Prelude.{◌≡◌};
ghost use Rattle.gumbo_parse.specs.Levels.{next, left, right, form_of, height, is_looser};

/// How tightly an expression binds, from the loosest.
#[derive(Clone, Copy, PartialEq, Eq)]
pub enum Level {
    Implication,
    Disjunction,
    Conjunction,
    Negation,
    Comparison,
    Sum,
    Product,
    Sign,
    Operand,
}

/// How the expressions of a level are made of tighter ones.
#[derive(Clone, Copy)]
pub enum Form {
    /// Any number of operators, which group to the left.
    Chain,
    /// At most one operator between two operands.
    Pair,
    /// Any number of operators before an operand.
    Prefix,
    /// No operator.
    Operand,
}

impl Level {
    /// The level of what its operators join.
    pub fn next(self) -> Level
        ensures { result ≡ next self }
    {
        match self {
            Level::Implication => Level::Disjunction,
            Level::Disjunction => Level::Conjunction,
            Level::Conjunction => Level::Negation,
            Level::Negation => Level::Comparison,
            Level::Comparison => Level::Sum,
            Level::Sum => Level::Product,
            Level::Product => Level::Sign,
            Level::Sign => Level::Operand,
            Level::Operand => Level::Operand,
        }
    }

    /// The level of what stands before one of its operators.
    pub fn left(self) -> Level
        ensures { result ≡ left self }
    {
        match self.form() {
            Form::Chain => self,
            _ => self.next(),
        }
    }

    /// The level of what stands behind one of its operators.
    pub fn right(self) -> Level
        ensures { result ≡ right self }
    {
        match self {
            Level::Implication => Level::Implication,
            _ => self.next(),
        }
    }

    pub fn form(self) -> Form
        ensures { result ≡ form_of self }
    {
        match self {
            Level::Implication | Level::Comparison => Form::Pair,
            Level::Disjunction | Level::Conjunction | Level::Sum | Level::Product => Form::Chain,
            Level::Negation | Level::Sign => Form::Prefix,
            Level::Operand => Form::Operand,
        }
    }

    /// How many levels are tighter.
    fn height(self) -> u8
        ensures { result ≡ height self }
    {
        match self {
            Level::Implication => 8,
            Level::Disjunction => 7,
            Level::Conjunction => 6,
            Level::Negation => 5,
            Level::Comparison => 4,
            Level::Sum => 3,
            Level::Product => 2,
            Level::Sign => 1,
            Level::Operand => 0,
        }
    }

    /// Whether it is looser than another level.
    pub fn is_looser(self, wanted: Level) -> bool
        ensures { result ≡ is_looser self wanted }
    {
        self.height() > wanted.height()
    }
}
