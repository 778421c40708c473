// The names of the fields, numbered in the order in which parsing first reaches them (docs/NAMES.md). Those of a second programme are reached
// by adding to the first one's, and are not here.

// syncinfo, 4.3.1
pub const SYNCWORD: u8 = 1;

pub const CRC1: u8 = 2;

pub const FSCOD: u8 = 3;

pub const FRMSIZECOD: u8 = 4;

// bsi, 4.3.2
pub const BSID: u8 = 5;

pub const BSMOD: u8 = 6;

pub const ACMOD: u8 = 7;

pub const CMIXLEV: u8 = 8;

pub const SURMIXLEV: u8 = 9;

pub const DSURMOD: u8 = 10;

pub const LFEON: u8 = 11;

// a programme; the second one's names stand eight further on
pub const DIALNORM: u8 = 12;

pub const COMPRE: u8 = 13;

pub const COMPR: u8 = 14;

pub const LANGCODE: u8 = 15;

pub const LANGCOD: u8 = 16;

pub const AUDPRODIE: u8 = 17;

pub const MIXLEVEL: u8 = 18;

pub const ROOMTYP: u8 = 19;

// after them
pub const COPYRIGHTB: u8 = 28;

pub const ORIGBS: u8 = 29;

// the alternate bsi, D.1.2
pub const XBSI1E: u8 = 30;

pub const DMIXMOD: u8 = 31;

pub const LTRTCMIXLEV: u8 = 32;

pub const LTRTSURMIXLEV: u8 = 33;

pub const LOROCMIXLEV: u8 = 34;

pub const LOROSURMIXLEV: u8 = 35;

pub const XBSI2E: u8 = 36;

pub const DSUREXMOD: u8 = 37;

pub const DHEADPHONMOD: u8 = 38;

pub const ADCONVTYP: u8 = 39;

pub const XBSI2: u8 = 40;

pub const ENCINFO: u8 = 41;

// time codes and additional information
pub const TIMECOD1E: u8 = 42;

pub const TIMECOD1: u8 = 43;

pub const TIMECOD2E: u8 = 44;

pub const TIMECOD2: u8 = 45;

pub const ADDBSIE: u8 = 46;

pub const ADDBSIL: u8 = 47;

pub const ADDBSI: u8 = 48;

// audblk, 4.3.3
pub const BLKSW: u8 = 49;

pub const DITHFLAG: u8 = 50;

pub const DYNRNGE: u8 = 51;

pub const DYNRNG: u8 = 52;

// coupling
pub const CPLSTRE: u8 = 55;

pub const CPLINU: u8 = 56;

pub const CHINCPL: u8 = 57;

pub const PHSFLGINU: u8 = 58;

pub const CPLBEGF: u8 = 59;

pub const CPLENDF: u8 = 60;

pub const CPLBNDSTRC: u8 = 61;

pub const CPLCOE: u8 = 62;

pub const MSTRCPLCO: u8 = 63;

pub const CPLCOEXP: u8 = 64;

pub const CPLCOMANT: u8 = 65;

pub const PHSFLG: u8 = 66;

// rematrixing
pub const REMATSTR: u8 = 67;

pub const REMATFLG: u8 = 68;

// exponents
pub const CPLEXPSTR: u8 = 69;

pub const CHEXPSTR: u8 = 70;

pub const LFEEXPSTR: u8 = 71;

pub const CHBWCOD: u8 = 72;

pub const CPLABSEXP: u8 = 73;

pub const CPLEXPS: u8 = 74;

pub const ABSEXP: u8 = 75;

pub const EXPS: u8 = 76;

pub const GAINRNG: u8 = 77;

pub const LFEABSEXP: u8 = 78;

pub const LFEEXPS: u8 = 79;

// parameters of the bit allocation
pub const BAIE: u8 = 80;

pub const SDCYCOD: u8 = 81;

pub const FDCYCOD: u8 = 82;

pub const SGAINCOD: u8 = 83;

pub const DBPBCOD: u8 = 84;

pub const FLOORCOD: u8 = 85;

pub const SNROFFSTE: u8 = 86;

pub const CSNROFFST: u8 = 87;

pub const CPLFSNROFFST: u8 = 88;

pub const CPLFGAINCOD: u8 = 89;

pub const FSNROFFST: u8 = 90;

pub const FGAINCOD: u8 = 91;

pub const LFEFSNROFFST: u8 = 92;

pub const LFEFGAINCOD: u8 = 93;

pub const CPLLEAKE: u8 = 94;

pub const CPLFLEAK: u8 = 95;

pub const CPLSLEAK: u8 = 96;

// delta bit allocation
pub const DELTBAIE: u8 = 97;

pub const CPLDELTBAE: u8 = 98;

pub const DELTBAE: u8 = 99;

pub const CPLDELTNSEG: u8 = 100;

pub const CPLDELTOFFST: u8 = 101;

pub const CPLDELTLEN: u8 = 102;

pub const CPLDELTBA: u8 = 103;

pub const DELTNSEG: u8 = 104;

pub const DELTOFFST: u8 = 105;

pub const DELTLEN: u8 = 106;

pub const DELTBA: u8 = 107;

// skip field and mantissas
pub const SKIPLE: u8 = 108;

pub const SKIPL: u8 = 109;

pub const SKIPFLD: u8 = 110;

pub const MANTISSAS: u8 = 111;
