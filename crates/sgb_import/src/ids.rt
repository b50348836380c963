//! Ids of graphs, and names of vertices.
ghost use Rattle.std.specs.Prelude.{◌≡◌};
ghost use Rattle.std.specs.List.{list_all};
ghost use Rattle.sgb_graph.specs.Sound.{is_id, is_text};
ghost use Rattle.sgb_graph.specs.Text.{is_text_byte};

/// The most bytes of an id.
const ID_LIMIT: usize = 160;

/// Whether a graph may have this id.
pub(crate) fn is_id(bytes: &[u8]) -> bool
    ensures { result ≡ is_id bytes.now }
{
    bytes.len() <= ID_LIMIT && has_text(bytes)
}

/// The most bytes of a name.
const NAME_LIMIT: usize = 4095;

/// Whether a vertex may have this name.
pub(crate) fn is_text(bytes: &[u8]) -> bool
    ensures { result ≡ is_text bytes.now }
{
    bytes.len() <= NAME_LIMIT && has_text(bytes)
}

fn has_text(bytes: &[u8]) -> bool
    ensures { result ≡ list_all is_text_byte bytes.now }
{
    bytes.iter().all(|b| is_text_byte(*b))
}

fn is_text_byte(byte: u8) -> bool
    ensures { result ≡ is_text_byte byte }
{
    (b' '..=b'~').contains(&byte) && byte != b'"' && byte != b'\\'
}
