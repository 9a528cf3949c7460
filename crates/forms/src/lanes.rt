// The lane: its vertices, and then its edges.
ghost use Rattle.std.specs.Prelude.{◌≡◌, [], IfOk};
ghost use Rattle.std.specs.Option.{option_map};
ghost use Rattle.forms.specs.Signs.{ahead, parsed};
ghost use Rattle.forms.specs.Lanes.{head_in, vertex_in, edge_in, part_in, inner_part_in, lists_in, lists_content, lane_content, lane_in};

use crate::parts::{close, field, kind, number, word};
use crate::signs::next;
use crate::values::Lane;
use patterns::setting::{EdgeSetting, VertexSetting};
use std::alloc::{AllocError, Global};
use tokens::{Lexer, Token};

// The domain and the rest.
#[derive(Clone, Copy)]
pub struct Head {
    pub domain: u64,
    pub rest: u64,
}

// What may stand behind the head. The bracket that ends the lane is a part too, since no part at all is a fault.
#[derive(Clone, Copy)]
pub enum Part {
    Vertex(VertexSetting),
    Edge(EdgeSetting),
    End,
}

// Vertices and edges.
#[derive(Drop)]
pub struct Lists {
    pub vertices: Vec<VertexSetting>,
    pub edges: Vec<EdgeSetting>,
}

fn lane_head(lexer: &mut Lexer) -> Option<Head>
    ensures { parsed result (ahead lexer.new) ≡ head_in (ahead lexer.old) }
{
    let domain = number(lexer)?;
    let rest = field(lexer, b"rest")?;
    Some(Head { domain, rest })
}

fn vertex(lexer: &mut Lexer) -> Option<Part>
    ensures { parsed result (ahead lexer.new) ≡ vertex_in (ahead lexer.old) }
{
    let bank = number(lexer)?;
    let kind = kind(lexer)?;
    close(lexer)?;
    Some(Part::Vertex(VertexSetting { bank, kind }))
}

fn edge(lexer: &mut Lexer) -> Option<Part>
    ensures { parsed result (ahead lexer.new) ≡ edge_in (ahead lexer.old) }
{
    let source = number(lexer)?;
    let target = number(lexer)?;
    let weight = number(lexer)?;
    close(lexer)?;
    Some(Part::Edge(EdgeSetting {
        source,
        target,
        weight,
    }))
}

// A vertex or an edge, behind its bracket.
fn inner_part(lexer: &mut Lexer) -> Option<Part>
    ensures { parsed result (ahead lexer.new) ≡ inner_part_in (ahead lexer.old) }
{
    let word = word(lexer)?;
    match word {
        b"vertex" => vertex(lexer),
        b"edge" => edge(lexer),
        _ => None,
    }
}

fn next_part(lexer: &mut Lexer) -> Option<Part>
    ensures { parsed result (ahead lexer.new) ≡ part_in (ahead lexer.old) }
{
    match next(lexer) {
        Some(Token::Close(_)) => Some(Part::End),
        Some(Token::Open(_)) => inner_part(lexer),
        _ => None,
    }
}

// The vertices, and then the edges, up to the bracket that ends the lane; none if they are no lane's.
fn lane_lists(heap: Global, lexer: &mut Lexer) -> Result<Option<Lists>, AllocError>
    ensures { IfOk result (λ o. parsed (option_map lists_content o) (ahead lexer.new) ≡ lists_in [] [] (ahead lexer.old)) }
{
    let mut vertices = Vec::new(heap);
    let mut edges = Vec::new(heap);
    'part: loop {
        match next_part(lexer) {
            Some(Part::Vertex(vertex)) => {
                if !edges.is_empty() {
                    return Ok(None);
                }
                vertices.push(vertex)?;
            }
            Some(Part::Edge(edge)) => edges.push(edge)?,
            Some(Part::End) => return Ok(Some(Lists { vertices, edges })),
            None => return Ok(None),
        }
    }
}

pub fn lane(heap: Global, lexer: &mut Lexer) -> Result<Option<Lane>, AllocError>
    ensures { IfOk result (λ o. parsed (option_map lane_content o) (ahead lexer.new) ≡ lane_in (ahead lexer.old)) }
{
    let Some(head) = lane_head(lexer) else {
        return Ok(None);
    };
    let Some(Lists { vertices, edges }) = lane_lists(heap, lexer)? else {
        return Ok(None);
    };
    Ok(Some(Lane {
        domain: head.domain,
        rest: head.rest,
        vertices,
        edges,
    }))
}
