// Opening a container.
ghost use Rattle.std.specs.Prelude.{◌≡◌};
ghost use Rattle.nx.specs.Open.{supported, chosen_of, mapped_of, container_of, open_at};

use checkpoints::{Choice, Superblock, checkpoint_by};
use error::Refusal;
use geometry::{Geometry, geometry_at};
use lookup::{Counted, Map};
use obj::Reader;

#[derive(Clone, Copy)]
pub struct Container {
    pub reader: Reader,
    pub sb: Superblock,
    pub map: Map,
}

// Version 1 and Fusion containers are refused.
fn supported_of(sb: Superblock) -> Result<Superblock, Refusal>
    ensures { result ≡ supported sb }
{
    if sb.incompat % 2 == 1 {
        return Err(Refusal::Unsupported);
    }
    if sb.incompat / 256 % 2 == 1 {
        return Err(Refusal::Unsupported);
    }
    Ok(sb)
}

#[tactic(auto, unfolding(crate::specs::Open::chosen_of, error::specs::Answer::if_le, error::specs::Answer::if_eq))]
fn chosen_of(image: &[u8], g: Geometry, choice: Choice) -> Result<Superblock, Refusal>
    ensures { result ≡ chosen_of choice image.now g }
{
    let sb = checkpoint_by(image, g, choice)?;
    supported_of(sb)
}

// The container of a checkpoint, its object map loaded.
fn mapped_of(image: &[u8], reader: Reader, sb: Superblock) -> Counted<Container>
    ensures { result ≡ mapped_of image.now reader sb }
{
    let loaded = omap::load(reader, image, sb.omap_oid, sb.xid, 0);
    let map = loaded.answer;
    match map {
        Ok(m) => Counted {
            answer: Ok(Container {
                reader: reader,
                sb: sb,
                map: m,
            }),
            nodes: loaded.nodes,
        },
        Err(e) => Counted {
            answer: Err(e),
            nodes: loaded.nodes,
        },
    }
}

fn container_of(image: &[u8], g: Geometry, choice: Choice) -> Counted<Container>
    ensures { result ≡ container_of choice image.now g }
{
    match chosen_of(image, g, choice) {
        Ok(sb) => {
            let reader = g.reader;
            mapped_of(image, reader, sb)
        }
        Err(e) => Counted {
            answer: Err(e),
            nodes: 0,
        },
    }
}

// The container at the checkpoint that is chosen.
pub fn open(image: &[u8], choice: Choice) -> Counted<Container>
    ensures { result ≡ open_at choice image.now }
{
    if 17179869184 < image.len() {
        return Counted {
            answer: Err(Refusal::ImageTooLarge),
            nodes: 0,
        };
    }
    match geometry_at(image) {
        Ok(g) => container_of(image, g, choice),
        Err(e) => Counted {
            answer: Err(e),
            nodes: 0,
        },
    }
}
