// What a record holds, as numbers.
ghost use Rattle.std.specs.Prelude.{◌≡◌};
ghost use Rattle.record.specs.Decoding.{Decoded};
ghost use Rattle.record.specs.Contents.{flag_of, seal_flag_of, tag_of};

use crate::errors::Malformed;
use crate::marks::{Content, Origin, SealOrigin};
use crate::tags::{Kind, Tag};

impl TryFrom<u8> for Origin {
    type Error = Malformed;

    ghost try_from_gives = { λ n r. Decoded flag_of n r };

    fn try_from(flag: u8) -> Result<Origin, Malformed> {
        match flag {
            0 => Ok(Origin::Fresh),
            1 => Ok(Origin::Copied),
            _ => Err(Malformed),
        }
    }
}

impl TryFrom<u8> for SealOrigin {
    type Error = Malformed;

    ghost try_from_gives = { λ n r. Decoded seal_flag_of n r };

    fn try_from(flag: u8) -> Result<SealOrigin, Malformed> {
        match flag {
            0 => Ok(SealOrigin::Flush),
            2 => Ok(SealOrigin::Recovery),
            _ => Err(Malformed),
        }
    }
}

impl From<Content> for Tag {
    ghost from_gives = { λ c t. t ≡ tag_of c };

    fn from(content: Content) -> Tag {
        match content {
            Content::Data { origin, sector } => Tag {
                flag: origin as u8,
                place: sector.number,
                ..Tag::bare(Kind::Data)
            },
            Content::Table { origin, page } => Tag {
                flag: origin as u8,
                place: page.number,
                ..Tag::bare(Kind::Table)
            },
            Content::Seal { origin } => Tag {
                flag: origin as u8,
                ..Tag::bare(Kind::Seal)
            },
        }
    }
}

impl TryFrom<Tag> for Content {
    type Error = Malformed;

    ghost try_from_gives = { λ t r. Decoded tag_of t r };

    fn try_from(tag: Tag) -> Result<Content, Malformed> {
        match (Kind::try_from(tag.kind)?, tag) {
            (
                Kind::Data,
                Tag {
                    flag,
                    commit: 0,
                    place,
                    ..
                },
            ) => Ok(Content::Data {
                origin: flag.try_into()?,
                sector: place.try_into()?,
            }),
            (
                Kind::Table,
                Tag {
                    flag,
                    commit: 0,
                    place,
                    ..
                },
            ) => Ok(Content::Table {
                origin: flag.try_into()?,
                page: place.try_into()?,
            }),
            (
                Kind::Seal,
                Tag {
                    flag,
                    commit: 0,
                    place: 0,
                    ..
                },
            ) => Ok(Content::Seal {
                origin: flag.try_into()?,
            }),
            _ => Err(Malformed),
        }
    }
}
