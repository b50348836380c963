//! Saved texts.

/// Two vertices that an edge joins.
pub const EDGE: &str = "* GraphBase graph (util_types ZZZZZZZZZZZZZZ,2V,2A)
\"gb_new_graph(2)\",2,2
* Vertices
\"\",A0
\"\",A1
* Arcs
V1,0,5
V0,0,5
* Checksum 450523822
";

/// The same with another check number.
pub const WRONG: &str = "* GraphBase graph (util_types ZZZZZZZZZZZZZZ,2V,2A)
\"gb_new_graph(2)\",2,2
* Vertices
\"\",A0
\"\",A1
* Arcs
V1,0,5
V0,0,5
* Checksum 450523823
";

/// A first line whose count of vertices is above the limit.
pub const LARGE: &str = "* GraphBase graph (util_types ZZZZZZZZZZZZZZ,70000V,2A)
";
