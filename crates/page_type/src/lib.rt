// Page types, from the letter in the trailer: document 01, "Page, trailer, superblock". It carries over the original's page.rs, PageType.
#![tactic(auto)]

ghost use Rattle.std.specs.Prelude.{◌≡◌};
ghost use Rattle.page_type.specs.Types.{is_variant, type_of, byte_of};

#[derive(Clone, Copy, PartialEq, Eq)]
pub enum PageType {
    Extent,
    Alloc,
    Map,
    Header,
    Catalog,
    Bootstrap,
    Index,
    Other(u8),
}

impl PageType {
    // Newer files write the letters of ordinary pages in lower case, so both cases name one type.
    pub fn from_byte(b: u8) -> Self
        ensures { result ≡ type_of b }
    {
        match b.to_ascii_uppercase() {
            b'E' => PageType::Extent,
            b'A' => PageType::Alloc,
            b'M' => PageType::Map,
            b'H' => PageType::Header,
            b'C' => PageType::Catalog,
            b'@' => PageType::Bootstrap,
            b'I' => PageType::Index,
            _ => PageType::Other(b),
        }
    }

    pub fn as_byte(self) -> u8
        ensures { result ≡ byte_of self }
    {
        match self {
            PageType::Extent => b'E',
            PageType::Alloc => b'A',
            PageType::Map => b'M',
            PageType::Header => b'H',
            PageType::Catalog => b'C',
            PageType::Bootstrap => b'@',
            PageType::Index => b'I',
            PageType::Other(b) => b,
        }
    }
}

// Whether a type byte is a lower-case letter.
pub fn case_variant(b: u8) -> bool
    ensures { result ≡ is_variant b }
{
    b.is_ascii_lowercase()
}
