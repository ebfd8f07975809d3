// The names of the kinds.
ghost use Rattle.std.specs.Prelude.{◌≡◌};
ghost use Rattle.kinds.specs.Number.{kind_number};
ghost use Rattle.kinds.specs.Table.{name_of};

use crate::Kind;

impl Kind {
    // The name of a kind.
    #[tactic(auto, unfolding(crate::specs::Table::row_of, crate::specs::Table::table, crate::specs::Table::specials, crate::specs::Table::operators, crate::specs::Table::keywords))]
    pub fn name(self) -> &'static str
        ensures { result.now ≡ name_of (kind_number self) }
    {
        match self {
            Kind::None => "NONE",
            Kind::Illegal => "ILLEGAL",
            Kind::Eof => "EOF",
            Kind::Comment => "COMMENT",
            Kind::Ident => "IDENT",
            Kind::Int => "INT",
            Kind::Float => "FLOAT",
            Kind::Imag => "IMAG",
            Kind::Char => "CHAR",
            Kind::String => "STRING",
            Kind::Add => "+",
            Kind::Sub => "-",
            Kind::Mul => "*",
            Kind::Quo => "/",
            Kind::Rem => "%",
            Kind::And => "&",
            Kind::Or => "|",
            Kind::Xor => "^",
            Kind::Shl => "<<",
            Kind::Shr => ">>",
            Kind::AndNot => "&^",
            Kind::AddAssign => "+=",
            Kind::SubAssign => "-=",
            Kind::MulAssign => "*=",
            Kind::QuoAssign => "/=",
            Kind::RemAssign => "%=",
            Kind::AndAssign => "&=",
            Kind::OrAssign => "|=",
            Kind::XorAssign => "^=",
            Kind::ShlAssign => "<<=",
            Kind::ShrAssign => ">>=",
            Kind::AndNotAssign => "&^=",
            Kind::Land => "&&",
            Kind::Lor => "||",
            Kind::Arrow => "<-",
            Kind::Inc => "++",
            Kind::Dec => "--",
            Kind::Eql => "==",
            Kind::Lss => "<",
            Kind::Gtr => ">",
            Kind::Assign => "=",
            Kind::Not => "!",
            Kind::Neq => "!=",
            Kind::Leq => "<=",
            Kind::Geq => ">=",
            Kind::Define => ":=",
            Kind::Ellipsis => "...",
            Kind::Lparen => "(",
            Kind::Lbrack => "[",
            Kind::Lbrace => "{",
            Kind::Comma => ",",
            Kind::Period => ".",
            Kind::Rparen => ")",
            Kind::Rbrack => "]",
            Kind::Rbrace => "}",
            Kind::Semicolon => ";",
            Kind::Colon => ":",
            Kind::Break => "break",
            Kind::Case => "case",
            Kind::Chan => "chan",
            Kind::Const => "const",
            Kind::Continue => "continue",
            Kind::Default => "default",
            Kind::Defer => "defer",
            Kind::Else => "else",
            Kind::Fallthrough => "fallthrough",
            Kind::For => "for",
            Kind::Func => "func",
            Kind::Go => "go",
            Kind::Goto => "goto",
            Kind::If => "if",
            Kind::Import => "import",
            Kind::Interface => "interface",
            Kind::Map => "map",
            Kind::Package => "package",
            Kind::Range => "range",
            Kind::Return => "return",
            Kind::Select => "select",
            Kind::Struct => "struct",
            Kind::Switch => "switch",
            Kind::Type => "type",
            Kind::Var => "var",
        }
    }
}

// The name of the kind with a number; of a number that is no kind, the empty one.
pub fn name(kind: u8) -> &'static str
    ensures { result.now ≡ name_of kind }
{
    match Kind::try_from(kind) {
        Ok(kind) => kind.name(),
        Err(_) => "",
    }
}
