//! The named character references, made by `tools/make_references.py`; do not edit them.

#[rattlefmt::skip]
static UPPER_A: [(&str, &str); 27] = [
    ("AElig;", "\u{00C6}"), ("Aacute;", "\u{00C1}"), ("Acirc;", "\u{00C2}"), ("Agrave;", "\u{00C0}"),
    ("Alpha;", "\u{0391}"), ("Aring;", "\u{00C5}"), ("Atilde;", "\u{00C3}"), ("Auml;", "\u{00C4}"),
    ("AMP;", "\u{0026}"), ("Abreve;", "\u{0102}"), ("Acy;", "\u{0410}"), ("Afr;", "\u{1D504}"),
    ("Amacr;", "\u{0100}"), ("And;", "\u{2A53}"), ("Aogon;", "\u{0104}"), ("Aopf;", "\u{1D538}"),
    ("ApplyFunction;", "\u{2061}"), ("Ascr;", "\u{1D49C}"), ("Assign;", "\u{2254}"), ("Aacute", "\u{00C1}"),
    ("Agrave", "\u{00C0}"), ("Atilde", "\u{00C3}"), ("AElig", "\u{00C6}"), ("Acirc", "\u{00C2}"),
    ("Aring", "\u{00C5}"), ("Auml", "\u{00C4}"), ("AMP", "\u{0026}"),
];

#[rattlefmt::skip]
static UPPER_B: [(&str, &str); 12] = [
    ("Beta;", "\u{0392}"), ("Backslash;", "\u{2216}"), ("Barv;", "\u{2AE7}"), ("Barwed;", "\u{2306}"),
    ("Bcy;", "\u{0411}"), ("Because;", "\u{2235}"), ("Bernoullis;", "\u{212C}"), ("Bfr;", "\u{1D505}"),
    ("Bopf;", "\u{1D539}"), ("Breve;", "\u{02D8}"), ("Bscr;", "\u{212C}"), ("Bumpeq;", "\u{224E}"),
];

#[rattlefmt::skip]
static UPPER_C: [(&str, &str); 36] = [
    ("Ccedil;", "\u{00C7}"), ("Chi;", "\u{03A7}"), ("CHcy;", "\u{0427}"), ("COPY;", "\u{00A9}"),
    ("Cacute;", "\u{0106}"), ("Cap;", "\u{22D2}"), ("CapitalDifferentialD;", "\u{2145}"), ("Cayleys;", "\u{212D}"),
    ("Ccaron;", "\u{010C}"), ("Ccirc;", "\u{0108}"), ("Cconint;", "\u{2230}"), ("Cdot;", "\u{010A}"),
    ("Cedilla;", "\u{00B8}"), ("CenterDot;", "\u{00B7}"), ("Cfr;", "\u{212D}"), ("CircleDot;", "\u{2299}"),
    ("CircleMinus;", "\u{2296}"), ("CirclePlus;", "\u{2295}"), ("CircleTimes;", "\u{2297}"),
    ("ClockwiseContourIntegral;", "\u{2232}"), ("CloseCurlyDoubleQuote;", "\u{201D}"),
    ("CloseCurlyQuote;", "\u{2019}"), ("Colon;", "\u{2237}"), ("Colone;", "\u{2A74}"), ("Congruent;", "\u{2261}"),
    ("Conint;", "\u{222F}"), ("ContourIntegral;", "\u{222E}"), ("Copf;", "\u{2102}"), ("Coproduct;", "\u{2210}"),
    ("CounterClockwiseContourIntegral;", "\u{2233}"), ("Cross;", "\u{2A2F}"), ("Cscr;", "\u{1D49E}"),
    ("Cup;", "\u{22D3}"), ("CupCap;", "\u{224D}"), ("Ccedil", "\u{00C7}"), ("COPY", "\u{00A9}"),
];

#[rattlefmt::skip]
static UPPER_D: [(&str, &str); 54] = [
    ("Dagger;", "\u{2021}"), ("Delta;", "\u{0394}"), ("DD;", "\u{2145}"), ("DDotrahd;", "\u{2911}"),
    ("DJcy;", "\u{0402}"), ("DScy;", "\u{0405}"), ("DZcy;", "\u{040F}"), ("Darr;", "\u{21A1}"),
    ("Dashv;", "\u{2AE4}"), ("Dcaron;", "\u{010E}"), ("Dcy;", "\u{0414}"), ("Del;", "\u{2207}"),
    ("Dfr;", "\u{1D507}"), ("DiacriticalAcute;", "\u{00B4}"), ("DiacriticalDot;", "\u{02D9}"),
    ("DiacriticalDoubleAcute;", "\u{02DD}"), ("DiacriticalGrave;", "\u{0060}"), ("DiacriticalTilde;", "\u{02DC}"),
    ("Diamond;", "\u{22C4}"), ("DifferentialD;", "\u{2146}"), ("Dopf;", "\u{1D53B}"), ("Dot;", "\u{00A8}"),
    ("DotDot;", "\u{20DC}"), ("DotEqual;", "\u{2250}"), ("DoubleContourIntegral;", "\u{222F}"),
    ("DoubleDot;", "\u{00A8}"), ("DoubleDownArrow;", "\u{21D3}"), ("DoubleLeftArrow;", "\u{21D0}"),
    ("DoubleLeftRightArrow;", "\u{21D4}"), ("DoubleLeftTee;", "\u{2AE4}"), ("DoubleLongLeftArrow;", "\u{27F8}"),
    ("DoubleLongLeftRightArrow;", "\u{27FA}"), ("DoubleLongRightArrow;", "\u{27F9}"),
    ("DoubleRightArrow;", "\u{21D2}"), ("DoubleRightTee;", "\u{22A8}"), ("DoubleUpArrow;", "\u{21D1}"),
    ("DoubleUpDownArrow;", "\u{21D5}"), ("DoubleVerticalBar;", "\u{2225}"), ("DownArrow;", "\u{2193}"),
    ("DownArrowBar;", "\u{2913}"), ("DownArrowUpArrow;", "\u{21F5}"), ("DownBreve;", "\u{0311}"),
    ("DownLeftRightVector;", "\u{2950}"), ("DownLeftTeeVector;", "\u{295E}"), ("DownLeftVector;", "\u{21BD}"),
    ("DownLeftVectorBar;", "\u{2956}"), ("DownRightTeeVector;", "\u{295F}"), ("DownRightVector;", "\u{21C1}"),
    ("DownRightVectorBar;", "\u{2957}"), ("DownTee;", "\u{22A4}"), ("DownTeeArrow;", "\u{21A7}"),
    ("Downarrow;", "\u{21D3}"), ("Dscr;", "\u{1D49F}"), ("Dstrok;", "\u{0110}"),
];

#[rattlefmt::skip]
static UPPER_E: [(&str, &str); 30] = [
    ("ETH;", "\u{00D0}"), ("Eacute;", "\u{00C9}"), ("Ecirc;", "\u{00CA}"), ("Egrave;", "\u{00C8}"),
    ("Epsilon;", "\u{0395}"), ("Eta;", "\u{0397}"), ("Euml;", "\u{00CB}"), ("ENG;", "\u{014A}"),
    ("Ecaron;", "\u{011A}"), ("Ecy;", "\u{042D}"), ("Edot;", "\u{0116}"), ("Efr;", "\u{1D508}"),
    ("Element;", "\u{2208}"), ("Emacr;", "\u{0112}"), ("EmptySmallSquare;", "\u{25FB}"),
    ("EmptyVerySmallSquare;", "\u{25AB}"), ("Eogon;", "\u{0118}"), ("Eopf;", "\u{1D53C}"), ("Equal;", "\u{2A75}"),
    ("EqualTilde;", "\u{2242}"), ("Equilibrium;", "\u{21CC}"), ("Escr;", "\u{2130}"), ("Esim;", "\u{2A73}"),
    ("Exists;", "\u{2203}"), ("ExponentialE;", "\u{2147}"), ("Eacute", "\u{00C9}"), ("Egrave", "\u{00C8}"),
    ("Ecirc", "\u{00CA}"), ("Euml", "\u{00CB}"), ("ETH", "\u{00D0}"),
];

#[rattlefmt::skip]
static UPPER_F: [(&str, &str); 8] = [
    ("Fcy;", "\u{0424}"), ("Ffr;", "\u{1D509}"), ("FilledSmallSquare;", "\u{25FC}"),
    ("FilledVerySmallSquare;", "\u{25AA}"), ("Fopf;", "\u{1D53D}"), ("ForAll;", "\u{2200}"),
    ("Fouriertrf;", "\u{2131}"), ("Fscr;", "\u{2131}"),
];

#[rattlefmt::skip]
static UPPER_G: [(&str, &str); 22] = [
    ("Gamma;", "\u{0393}"), ("GJcy;", "\u{0403}"), ("GT;", "\u{003E}"), ("Gammad;", "\u{03DC}"),
    ("Gbreve;", "\u{011E}"), ("Gcedil;", "\u{0122}"), ("Gcirc;", "\u{011C}"), ("Gcy;", "\u{0413}"),
    ("Gdot;", "\u{0120}"), ("Gfr;", "\u{1D50A}"), ("Gg;", "\u{22D9}"), ("Gopf;", "\u{1D53E}"),
    ("GreaterEqual;", "\u{2265}"), ("GreaterEqualLess;", "\u{22DB}"), ("GreaterFullEqual;", "\u{2267}"),
    ("GreaterGreater;", "\u{2AA2}"), ("GreaterLess;", "\u{2277}"), ("GreaterSlantEqual;", "\u{2A7E}"),
    ("GreaterTilde;", "\u{2273}"), ("Gscr;", "\u{1D4A2}"), ("Gt;", "\u{226B}"), ("GT", "\u{003E}"),
];

#[rattlefmt::skip]
static UPPER_H: [(&str, &str); 12] = [
    ("HARDcy;", "\u{042A}"), ("Hacek;", "\u{02C7}"), ("Hat;", "\u{005E}"), ("Hcirc;", "\u{0124}"),
    ("Hfr;", "\u{210C}"), ("HilbertSpace;", "\u{210B}"), ("Hopf;", "\u{210D}"), ("HorizontalLine;", "\u{2500}"),
    ("Hscr;", "\u{210B}"), ("Hstrok;", "\u{0126}"), ("HumpDownHump;", "\u{224E}"), ("HumpEqual;", "\u{224F}"),
];

#[rattlefmt::skip]
static UPPER_I: [(&str, &str); 29] = [
    ("Iacute;", "\u{00CD}"), ("Icirc;", "\u{00CE}"), ("Igrave;", "\u{00CC}"), ("Iota;", "\u{0399}"),
    ("Iuml;", "\u{00CF}"), ("IEcy;", "\u{0415}"), ("IJlig;", "\u{0132}"), ("IOcy;", "\u{0401}"), ("Icy;", "\u{0418}"),
    ("Idot;", "\u{0130}"), ("Ifr;", "\u{2111}"), ("Im;", "\u{2111}"), ("Imacr;", "\u{012A}"),
    ("ImaginaryI;", "\u{2148}"), ("Implies;", "\u{21D2}"), ("Int;", "\u{222C}"), ("Integral;", "\u{222B}"),
    ("Intersection;", "\u{22C2}"), ("InvisibleComma;", "\u{2063}"), ("InvisibleTimes;", "\u{2062}"),
    ("Iogon;", "\u{012E}"), ("Iopf;", "\u{1D540}"), ("Iscr;", "\u{2110}"), ("Itilde;", "\u{0128}"),
    ("Iukcy;", "\u{0406}"), ("Iacute", "\u{00CD}"), ("Igrave", "\u{00CC}"), ("Icirc", "\u{00CE}"),
    ("Iuml", "\u{00CF}"),
];

#[rattlefmt::skip]
static UPPER_J: [(&str, &str); 7] = [
    ("Jcirc;", "\u{0134}"), ("Jcy;", "\u{0419}"), ("Jfr;", "\u{1D50D}"), ("Jopf;", "\u{1D541}"),
    ("Jscr;", "\u{1D4A5}"), ("Jsercy;", "\u{0408}"), ("Jukcy;", "\u{0404}"),
];

#[rattlefmt::skip]
static UPPER_K: [(&str, &str); 8] = [
    ("Kappa;", "\u{039A}"), ("KHcy;", "\u{0425}"), ("KJcy;", "\u{040C}"), ("Kcedil;", "\u{0136}"),
    ("Kcy;", "\u{041A}"), ("Kfr;", "\u{1D50E}"), ("Kopf;", "\u{1D542}"), ("Kscr;", "\u{1D4A6}"),
];

#[rattlefmt::skip]
static UPPER_L: [(&str, &str); 60] = [
    ("Lambda;", "\u{039B}"), ("LJcy;", "\u{0409}"), ("LT;", "\u{003C}"), ("Lacute;", "\u{0139}"),
    ("Lang;", "\u{27EA}"), ("Laplacetrf;", "\u{2112}"), ("Larr;", "\u{219E}"), ("Lcaron;", "\u{013D}"),
    ("Lcedil;", "\u{013B}"), ("Lcy;", "\u{041B}"), ("LeftAngleBracket;", "\u{27E8}"), ("LeftArrow;", "\u{2190}"),
    ("LeftArrowBar;", "\u{21E4}"), ("LeftArrowRightArrow;", "\u{21C6}"), ("LeftCeiling;", "\u{2308}"),
    ("LeftDoubleBracket;", "\u{27E6}"), ("LeftDownTeeVector;", "\u{2961}"), ("LeftDownVector;", "\u{21C3}"),
    ("LeftDownVectorBar;", "\u{2959}"), ("LeftFloor;", "\u{230A}"), ("LeftRightArrow;", "\u{2194}"),
    ("LeftRightVector;", "\u{294E}"), ("LeftTee;", "\u{22A3}"), ("LeftTeeArrow;", "\u{21A4}"),
    ("LeftTeeVector;", "\u{295A}"), ("LeftTriangle;", "\u{22B2}"), ("LeftTriangleBar;", "\u{29CF}"),
    ("LeftTriangleEqual;", "\u{22B4}"), ("LeftUpDownVector;", "\u{2951}"), ("LeftUpTeeVector;", "\u{2960}"),
    ("LeftUpVector;", "\u{21BF}"), ("LeftUpVectorBar;", "\u{2958}"), ("LeftVector;", "\u{21BC}"),
    ("LeftVectorBar;", "\u{2952}"), ("Leftarrow;", "\u{21D0}"), ("Leftrightarrow;", "\u{21D4}"),
    ("LessEqualGreater;", "\u{22DA}"), ("LessFullEqual;", "\u{2266}"), ("LessGreater;", "\u{2276}"),
    ("LessLess;", "\u{2AA1}"), ("LessSlantEqual;", "\u{2A7D}"), ("LessTilde;", "\u{2272}"), ("Lfr;", "\u{1D50F}"),
    ("Ll;", "\u{22D8}"), ("Lleftarrow;", "\u{21DA}"), ("Lmidot;", "\u{013F}"), ("LongLeftArrow;", "\u{27F5}"),
    ("LongLeftRightArrow;", "\u{27F7}"), ("LongRightArrow;", "\u{27F6}"), ("Longleftarrow;", "\u{27F8}"),
    ("Longleftrightarrow;", "\u{27FA}"), ("Longrightarrow;", "\u{27F9}"), ("Lopf;", "\u{1D543}"),
    ("LowerLeftArrow;", "\u{2199}"), ("LowerRightArrow;", "\u{2198}"), ("Lscr;", "\u{2112}"), ("Lsh;", "\u{21B0}"),
    ("Lstrok;", "\u{0141}"), ("Lt;", "\u{226A}"), ("LT", "\u{003C}"),
];

#[rattlefmt::skip]
static UPPER_M: [(&str, &str); 9] = [
    ("Mu;", "\u{039C}"), ("Map;", "\u{2905}"), ("Mcy;", "\u{041C}"), ("MediumSpace;", "\u{205F}"),
    ("Mellintrf;", "\u{2133}"), ("Mfr;", "\u{1D510}"), ("MinusPlus;", "\u{2213}"), ("Mopf;", "\u{1D544}"),
    ("Mscr;", "\u{2133}"),
];

#[rattlefmt::skip]
static UPPER_N: [(&str, &str); 72] = [
    ("Ntilde;", "\u{00D1}"), ("Nu;", "\u{039D}"), ("NJcy;", "\u{040A}"), ("Nacute;", "\u{0143}"),
    ("Ncaron;", "\u{0147}"), ("Ncedil;", "\u{0145}"), ("Ncy;", "\u{041D}"), ("NegativeMediumSpace;", "\u{200B}"),
    ("NegativeThickSpace;", "\u{200B}"), ("NegativeThinSpace;", "\u{200B}"), ("NegativeVeryThinSpace;", "\u{200B}"),
    ("NestedGreaterGreater;", "\u{226B}"), ("NestedLessLess;", "\u{226A}"), ("NewLine;", "\u{000A}"),
    ("Nfr;", "\u{1D511}"), ("NoBreak;", "\u{2060}"), ("NonBreakingSpace;", "\u{00A0}"), ("Nopf;", "\u{2115}"),
    ("Not;", "\u{2AEC}"), ("NotCongruent;", "\u{2262}"), ("NotCupCap;", "\u{226D}"),
    ("NotDoubleVerticalBar;", "\u{2226}"), ("NotElement;", "\u{2209}"), ("NotEqual;", "\u{2260}"),
    ("NotEqualTilde;", "\u{2242}\u{0338}"), ("NotExists;", "\u{2204}"), ("NotGreater;", "\u{226F}"),
    ("NotGreaterEqual;", "\u{2271}"), ("NotGreaterFullEqual;", "\u{2267}\u{0338}"),
    ("NotGreaterGreater;", "\u{226B}\u{0338}"), ("NotGreaterLess;", "\u{2279}"),
    ("NotGreaterSlantEqual;", "\u{2A7E}\u{0338}"), ("NotGreaterTilde;", "\u{2275}"),
    ("NotHumpDownHump;", "\u{224E}\u{0338}"), ("NotHumpEqual;", "\u{224F}\u{0338}"), ("NotLeftTriangle;", "\u{22EA}"),
    ("NotLeftTriangleBar;", "\u{29CF}\u{0338}"), ("NotLeftTriangleEqual;", "\u{22EC}"), ("NotLess;", "\u{226E}"),
    ("NotLessEqual;", "\u{2270}"), ("NotLessGreater;", "\u{2278}"), ("NotLessLess;", "\u{226A}\u{0338}"),
    ("NotLessSlantEqual;", "\u{2A7D}\u{0338}"), ("NotLessTilde;", "\u{2274}"),
    ("NotNestedGreaterGreater;", "\u{2AA2}\u{0338}"), ("NotNestedLessLess;", "\u{2AA1}\u{0338}"),
    ("NotPrecedes;", "\u{2280}"), ("NotPrecedesEqual;", "\u{2AAF}\u{0338}"), ("NotPrecedesSlantEqual;", "\u{22E0}"),
    ("NotReverseElement;", "\u{220C}"), ("NotRightTriangle;", "\u{22EB}"),
    ("NotRightTriangleBar;", "\u{29D0}\u{0338}"), ("NotRightTriangleEqual;", "\u{22ED}"),
    ("NotSquareSubset;", "\u{228F}\u{0338}"), ("NotSquareSubsetEqual;", "\u{22E2}"),
    ("NotSquareSuperset;", "\u{2290}\u{0338}"), ("NotSquareSupersetEqual;", "\u{22E3}"),
    ("NotSubset;", "\u{2282}\u{20D2}"), ("NotSubsetEqual;", "\u{2288}"), ("NotSucceeds;", "\u{2281}"),
    ("NotSucceedsEqual;", "\u{2AB0}\u{0338}"), ("NotSucceedsSlantEqual;", "\u{22E1}"),
    ("NotSucceedsTilde;", "\u{227F}\u{0338}"), ("NotSuperset;", "\u{2283}\u{20D2}"),
    ("NotSupersetEqual;", "\u{2289}"), ("NotTilde;", "\u{2241}"), ("NotTildeEqual;", "\u{2244}"),
    ("NotTildeFullEqual;", "\u{2247}"), ("NotTildeTilde;", "\u{2249}"), ("NotVerticalBar;", "\u{2224}"),
    ("Nscr;", "\u{1D4A9}"), ("Ntilde", "\u{00D1}"),
];

#[rattlefmt::skip]
static UPPER_O: [(&str, &str); 29] = [
    ("OElig;", "\u{0152}"), ("Oacute;", "\u{00D3}"), ("Ocirc;", "\u{00D4}"), ("Ograve;", "\u{00D2}"),
    ("Omega;", "\u{03A9}"), ("Omicron;", "\u{039F}"), ("Oslash;", "\u{00D8}"), ("Otilde;", "\u{00D5}"),
    ("Ouml;", "\u{00D6}"), ("Ocy;", "\u{041E}"), ("Odblac;", "\u{0150}"), ("Ofr;", "\u{1D512}"),
    ("Omacr;", "\u{014C}"), ("Oopf;", "\u{1D546}"), ("OpenCurlyDoubleQuote;", "\u{201C}"),
    ("OpenCurlyQuote;", "\u{2018}"), ("Or;", "\u{2A54}"), ("Oscr;", "\u{1D4AA}"), ("Otimes;", "\u{2A37}"),
    ("OverBar;", "\u{203E}"), ("OverBrace;", "\u{23DE}"), ("OverBracket;", "\u{23B4}"),
    ("OverParenthesis;", "\u{23DC}"), ("Oacute", "\u{00D3}"), ("Ograve", "\u{00D2}"), ("Oslash", "\u{00D8}"),
    ("Otilde", "\u{00D5}"), ("Ocirc", "\u{00D4}"), ("Ouml", "\u{00D6}"),
];

#[rattlefmt::skip]
static UPPER_P: [(&str, &str); 19] = [
    ("Phi;", "\u{03A6}"), ("Pi;", "\u{03A0}"), ("Prime;", "\u{2033}"), ("Psi;", "\u{03A8}"),
    ("PartialD;", "\u{2202}"), ("Pcy;", "\u{041F}"), ("Pfr;", "\u{1D513}"), ("PlusMinus;", "\u{00B1}"),
    ("Poincareplane;", "\u{210C}"), ("Popf;", "\u{2119}"), ("Pr;", "\u{2ABB}"), ("Precedes;", "\u{227A}"),
    ("PrecedesEqual;", "\u{2AAF}"), ("PrecedesSlantEqual;", "\u{227C}"), ("PrecedesTilde;", "\u{227E}"),
    ("Product;", "\u{220F}"), ("Proportion;", "\u{2237}"), ("Proportional;", "\u{221D}"), ("Pscr;", "\u{1D4AB}"),
];

#[rattlefmt::skip]
static UPPER_Q: [(&str, &str); 5] = [
    ("QUOT;", "\u{0022}"), ("Qfr;", "\u{1D514}"), ("Qopf;", "\u{211A}"), ("Qscr;", "\u{1D4AC}"), ("QUOT", "\u{0022}"),
];

#[rattlefmt::skip]
static UPPER_R: [(&str, &str); 45] = [
    ("Rho;", "\u{03A1}"), ("RBarr;", "\u{2910}"), ("REG;", "\u{00AE}"), ("Racute;", "\u{0154}"),
    ("Rang;", "\u{27EB}"), ("Rarr;", "\u{21A0}"), ("Rarrtl;", "\u{2916}"), ("Rcaron;", "\u{0158}"),
    ("Rcedil;", "\u{0156}"), ("Rcy;", "\u{0420}"), ("Re;", "\u{211C}"), ("ReverseElement;", "\u{220B}"),
    ("ReverseEquilibrium;", "\u{21CB}"), ("ReverseUpEquilibrium;", "\u{296F}"), ("Rfr;", "\u{211C}"),
    ("RightAngleBracket;", "\u{27E9}"), ("RightArrow;", "\u{2192}"), ("RightArrowBar;", "\u{21E5}"),
    ("RightArrowLeftArrow;", "\u{21C4}"), ("RightCeiling;", "\u{2309}"), ("RightDoubleBracket;", "\u{27E7}"),
    ("RightDownTeeVector;", "\u{295D}"), ("RightDownVector;", "\u{21C2}"), ("RightDownVectorBar;", "\u{2955}"),
    ("RightFloor;", "\u{230B}"), ("RightTee;", "\u{22A2}"), ("RightTeeArrow;", "\u{21A6}"),
    ("RightTeeVector;", "\u{295B}"), ("RightTriangle;", "\u{22B3}"), ("RightTriangleBar;", "\u{29D0}"),
    ("RightTriangleEqual;", "\u{22B5}"), ("RightUpDownVector;", "\u{294F}"), ("RightUpTeeVector;", "\u{295C}"),
    ("RightUpVector;", "\u{21BE}"), ("RightUpVectorBar;", "\u{2954}"), ("RightVector;", "\u{21C0}"),
    ("RightVectorBar;", "\u{2953}"), ("Rightarrow;", "\u{21D2}"), ("Ropf;", "\u{211D}"),
    ("RoundImplies;", "\u{2970}"), ("Rrightarrow;", "\u{21DB}"), ("Rscr;", "\u{211B}"), ("Rsh;", "\u{21B1}"),
    ("RuleDelayed;", "\u{29F4}"), ("REG", "\u{00AE}"),
];

#[rattlefmt::skip]
static UPPER_S: [(&str, &str); 40] = [
    ("Scaron;", "\u{0160}"), ("Sigma;", "\u{03A3}"), ("SHCHcy;", "\u{0429}"), ("SHcy;", "\u{0428}"),
    ("SOFTcy;", "\u{042C}"), ("Sacute;", "\u{015A}"), ("Sc;", "\u{2ABC}"), ("Scedil;", "\u{015E}"),
    ("Scirc;", "\u{015C}"), ("Scy;", "\u{0421}"), ("Sfr;", "\u{1D516}"), ("ShortDownArrow;", "\u{2193}"),
    ("ShortLeftArrow;", "\u{2190}"), ("ShortRightArrow;", "\u{2192}"), ("ShortUpArrow;", "\u{2191}"),
    ("SmallCircle;", "\u{2218}"), ("Sopf;", "\u{1D54A}"), ("Sqrt;", "\u{221A}"), ("Square;", "\u{25A1}"),
    ("SquareIntersection;", "\u{2293}"), ("SquareSubset;", "\u{228F}"), ("SquareSubsetEqual;", "\u{2291}"),
    ("SquareSuperset;", "\u{2290}"), ("SquareSupersetEqual;", "\u{2292}"), ("SquareUnion;", "\u{2294}"),
    ("Sscr;", "\u{1D4AE}"), ("Star;", "\u{22C6}"), ("Sub;", "\u{22D0}"), ("Subset;", "\u{22D0}"),
    ("SubsetEqual;", "\u{2286}"), ("Succeeds;", "\u{227B}"), ("SucceedsEqual;", "\u{2AB0}"),
    ("SucceedsSlantEqual;", "\u{227D}"), ("SucceedsTilde;", "\u{227F}"), ("SuchThat;", "\u{220B}"),
    ("Sum;", "\u{2211}"), ("Sup;", "\u{22D1}"), ("Superset;", "\u{2283}"), ("SupersetEqual;", "\u{2287}"),
    ("Supset;", "\u{22D1}"),
];

#[rattlefmt::skip]
static UPPER_T: [(&str, &str); 23] = [
    ("THORN;", "\u{00DE}"), ("Tau;", "\u{03A4}"), ("Theta;", "\u{0398}"), ("TRADE;", "\u{2122}"),
    ("TSHcy;", "\u{040B}"), ("TScy;", "\u{0426}"), ("Tab;", "\u{0009}"), ("Tcaron;", "\u{0164}"),
    ("Tcedil;", "\u{0162}"), ("Tcy;", "\u{0422}"), ("Tfr;", "\u{1D517}"), ("Therefore;", "\u{2234}"),
    ("ThickSpace;", "\u{205F}\u{200A}"), ("ThinSpace;", "\u{2009}"), ("Tilde;", "\u{223C}"),
    ("TildeEqual;", "\u{2243}"), ("TildeFullEqual;", "\u{2245}"), ("TildeTilde;", "\u{2248}"), ("Topf;", "\u{1D54B}"),
    ("TripleDot;", "\u{20DB}"), ("Tscr;", "\u{1D4AF}"), ("Tstrok;", "\u{0166}"), ("THORN", "\u{00DE}"),
];

#[rattlefmt::skip]
static UPPER_U: [(&str, &str); 40] = [
    ("Uacute;", "\u{00DA}"), ("Ucirc;", "\u{00DB}"), ("Ugrave;", "\u{00D9}"), ("Upsilon;", "\u{03A5}"),
    ("Uuml;", "\u{00DC}"), ("Uarr;", "\u{219F}"), ("Uarrocir;", "\u{2949}"), ("Ubrcy;", "\u{040E}"),
    ("Ubreve;", "\u{016C}"), ("Ucy;", "\u{0423}"), ("Udblac;", "\u{0170}"), ("Ufr;", "\u{1D518}"),
    ("Umacr;", "\u{016A}"), ("UnderBar;", "\u{005F}"), ("UnderBrace;", "\u{23DF}"), ("UnderBracket;", "\u{23B5}"),
    ("UnderParenthesis;", "\u{23DD}"), ("Union;", "\u{22C3}"), ("UnionPlus;", "\u{228E}"), ("Uogon;", "\u{0172}"),
    ("Uopf;", "\u{1D54C}"), ("UpArrow;", "\u{2191}"), ("UpArrowBar;", "\u{2912}"), ("UpArrowDownArrow;", "\u{21C5}"),
    ("UpDownArrow;", "\u{2195}"), ("UpEquilibrium;", "\u{296E}"), ("UpTee;", "\u{22A5}"), ("UpTeeArrow;", "\u{21A5}"),
    ("Uparrow;", "\u{21D1}"), ("Updownarrow;", "\u{21D5}"), ("UpperLeftArrow;", "\u{2196}"),
    ("UpperRightArrow;", "\u{2197}"), ("Upsi;", "\u{03D2}"), ("Uring;", "\u{016E}"), ("Uscr;", "\u{1D4B0}"),
    ("Utilde;", "\u{0168}"), ("Uacute", "\u{00DA}"), ("Ugrave", "\u{00D9}"), ("Ucirc", "\u{00DB}"),
    ("Uuml", "\u{00DC}"),
];

#[rattlefmt::skip]
static UPPER_V: [(&str, &str); 17] = [
    ("VDash;", "\u{22AB}"), ("Vbar;", "\u{2AEB}"), ("Vcy;", "\u{0412}"), ("Vdash;", "\u{22A9}"),
    ("Vdashl;", "\u{2AE6}"), ("Vee;", "\u{22C1}"), ("Verbar;", "\u{2016}"), ("Vert;", "\u{2016}"),
    ("VerticalBar;", "\u{2223}"), ("VerticalLine;", "\u{007C}"), ("VerticalSeparator;", "\u{2758}"),
    ("VerticalTilde;", "\u{2240}"), ("VeryThinSpace;", "\u{200A}"), ("Vfr;", "\u{1D519}"), ("Vopf;", "\u{1D54D}"),
    ("Vscr;", "\u{1D4B1}"), ("Vvdash;", "\u{22AA}"),
];

#[rattlefmt::skip]
static UPPER_W: [(&str, &str); 5] = [
    ("Wcirc;", "\u{0174}"), ("Wedge;", "\u{22C0}"), ("Wfr;", "\u{1D51A}"), ("Wopf;", "\u{1D54E}"),
    ("Wscr;", "\u{1D4B2}"),
];

#[rattlefmt::skip]
static UPPER_X: [(&str, &str); 4] = [
    ("Xi;", "\u{039E}"), ("Xfr;", "\u{1D51B}"), ("Xopf;", "\u{1D54F}"), ("Xscr;", "\u{1D4B3}"),
];

#[rattlefmt::skip]
static UPPER_Y: [(&str, &str); 11] = [
    ("Yacute;", "\u{00DD}"), ("Yuml;", "\u{0178}"), ("YAcy;", "\u{042F}"), ("YIcy;", "\u{0407}"),
    ("YUcy;", "\u{042E}"), ("Ycirc;", "\u{0176}"), ("Ycy;", "\u{042B}"), ("Yfr;", "\u{1D51C}"),
    ("Yopf;", "\u{1D550}"), ("Yscr;", "\u{1D4B4}"), ("Yacute", "\u{00DD}"),
];

#[rattlefmt::skip]
static UPPER_Z: [(&str, &str); 10] = [
    ("Zeta;", "\u{0396}"), ("ZHcy;", "\u{0416}"), ("Zacute;", "\u{0179}"), ("Zcaron;", "\u{017D}"),
    ("Zcy;", "\u{0417}"), ("Zdot;", "\u{017B}"), ("ZeroWidthSpace;", "\u{200B}"), ("Zfr;", "\u{2128}"),
    ("Zopf;", "\u{2124}"), ("Zscr;", "\u{1D4B5}"),
];

#[rattlefmt::skip]
static LOWER_A: [(&str, &str); 69] = [
    ("amp;", "\u{0026}"), ("apos;", "\u{0027}"), ("auml;", "\u{00E4}"), ("aacute;", "\u{00E1}"),
    ("acirc;", "\u{00E2}"), ("acute;", "\u{00B4}"), ("aelig;", "\u{00E6}"), ("agrave;", "\u{00E0}"),
    ("alefsym;", "\u{2135}"), ("alpha;", "\u{03B1}"), ("and;", "\u{2227}"), ("ang;", "\u{2220}"),
    ("aring;", "\u{00E5}"), ("asymp;", "\u{2248}"), ("atilde;", "\u{00E3}"), ("abreve;", "\u{0103}"),
    ("ac;", "\u{223E}"), ("acE;", "\u{223E}\u{0333}"), ("acd;", "\u{223F}"), ("acy;", "\u{0430}"),
    ("af;", "\u{2061}"), ("afr;", "\u{1D51E}"), ("aleph;", "\u{2135}"), ("amacr;", "\u{0101}"),
    ("amalg;", "\u{2A3F}"), ("andand;", "\u{2A55}"), ("andd;", "\u{2A5C}"), ("andslope;", "\u{2A58}"),
    ("andv;", "\u{2A5A}"), ("ange;", "\u{29A4}"), ("angle;", "\u{2220}"), ("angmsd;", "\u{2221}"),
    ("angmsdaa;", "\u{29A8}"), ("angmsdab;", "\u{29A9}"), ("angmsdac;", "\u{29AA}"), ("angmsdad;", "\u{29AB}"),
    ("angmsdae;", "\u{29AC}"), ("angmsdaf;", "\u{29AD}"), ("angmsdag;", "\u{29AE}"), ("angmsdah;", "\u{29AF}"),
    ("angrt;", "\u{221F}"), ("angrtvb;", "\u{22BE}"), ("angrtvbd;", "\u{299D}"), ("angsph;", "\u{2222}"),
    ("angst;", "\u{00C5}"), ("angzarr;", "\u{237C}"), ("aogon;", "\u{0105}"), ("aopf;", "\u{1D552}"),
    ("ap;", "\u{2248}"), ("apE;", "\u{2A70}"), ("apacir;", "\u{2A6F}"), ("ape;", "\u{224A}"), ("apid;", "\u{224B}"),
    ("approx;", "\u{2248}"), ("approxeq;", "\u{224A}"), ("ascr;", "\u{1D4B6}"), ("ast;", "\u{002A}"),
    ("asympeq;", "\u{224D}"), ("awconint;", "\u{2233}"), ("awint;", "\u{2A11}"), ("aacute", "\u{00E1}"),
    ("agrave", "\u{00E0}"), ("atilde", "\u{00E3}"), ("acirc", "\u{00E2}"), ("acute", "\u{00B4}"),
    ("aelig", "\u{00E6}"), ("aring", "\u{00E5}"), ("auml", "\u{00E4}"), ("amp", "\u{0026}"),
];

#[rattlefmt::skip]
static LOWER_B: [(&str, &str); 116] = [
    ("bull;", "\u{2022}"), ("bdquo;", "\u{201E}"), ("beta;", "\u{03B2}"), ("brvbar;", "\u{00A6}"),
    ("bNot;", "\u{2AED}"), ("backcong;", "\u{224C}"), ("backepsilon;", "\u{03F6}"), ("backprime;", "\u{2035}"),
    ("backsim;", "\u{223D}"), ("backsimeq;", "\u{22CD}"), ("barvee;", "\u{22BD}"), ("barwed;", "\u{2305}"),
    ("barwedge;", "\u{2305}"), ("bbrk;", "\u{23B5}"), ("bbrktbrk;", "\u{23B6}"), ("bcong;", "\u{224C}"),
    ("bcy;", "\u{0431}"), ("becaus;", "\u{2235}"), ("because;", "\u{2235}"), ("bemptyv;", "\u{29B0}"),
    ("bepsi;", "\u{03F6}"), ("bernou;", "\u{212C}"), ("beth;", "\u{2136}"), ("between;", "\u{226C}"),
    ("bfr;", "\u{1D51F}"), ("bigcap;", "\u{22C2}"), ("bigcirc;", "\u{25EF}"), ("bigcup;", "\u{22C3}"),
    ("bigodot;", "\u{2A00}"), ("bigoplus;", "\u{2A01}"), ("bigotimes;", "\u{2A02}"), ("bigsqcup;", "\u{2A06}"),
    ("bigstar;", "\u{2605}"), ("bigtriangledown;", "\u{25BD}"), ("bigtriangleup;", "\u{25B3}"),
    ("biguplus;", "\u{2A04}"), ("bigvee;", "\u{22C1}"), ("bigwedge;", "\u{22C0}"), ("bkarow;", "\u{290D}"),
    ("blacklozenge;", "\u{29EB}"), ("blacksquare;", "\u{25AA}"), ("blacktriangle;", "\u{25B4}"),
    ("blacktriangledown;", "\u{25BE}"), ("blacktriangleleft;", "\u{25C2}"), ("blacktriangleright;", "\u{25B8}"),
    ("blank;", "\u{2423}"), ("blk12;", "\u{2592}"), ("blk14;", "\u{2591}"), ("blk34;", "\u{2593}"),
    ("block;", "\u{2588}"), ("bne;", "\u{003D}\u{20E5}"), ("bnequiv;", "\u{2261}\u{20E5}"), ("bnot;", "\u{2310}"),
    ("bopf;", "\u{1D553}"), ("bot;", "\u{22A5}"), ("bottom;", "\u{22A5}"), ("bowtie;", "\u{22C8}"),
    ("boxDL;", "\u{2557}"), ("boxDR;", "\u{2554}"), ("boxDl;", "\u{2556}"), ("boxDr;", "\u{2553}"),
    ("boxH;", "\u{2550}"), ("boxHD;", "\u{2566}"), ("boxHU;", "\u{2569}"), ("boxHd;", "\u{2564}"),
    ("boxHu;", "\u{2567}"), ("boxUL;", "\u{255D}"), ("boxUR;", "\u{255A}"), ("boxUl;", "\u{255C}"),
    ("boxUr;", "\u{2559}"), ("boxV;", "\u{2551}"), ("boxVH;", "\u{256C}"), ("boxVL;", "\u{2563}"),
    ("boxVR;", "\u{2560}"), ("boxVh;", "\u{256B}"), ("boxVl;", "\u{2562}"), ("boxVr;", "\u{255F}"),
    ("boxbox;", "\u{29C9}"), ("boxdL;", "\u{2555}"), ("boxdR;", "\u{2552}"), ("boxdl;", "\u{2510}"),
    ("boxdr;", "\u{250C}"), ("boxh;", "\u{2500}"), ("boxhD;", "\u{2565}"), ("boxhU;", "\u{2568}"),
    ("boxhd;", "\u{252C}"), ("boxhu;", "\u{2534}"), ("boxminus;", "\u{229F}"), ("boxplus;", "\u{229E}"),
    ("boxtimes;", "\u{22A0}"), ("boxuL;", "\u{255B}"), ("boxuR;", "\u{2558}"), ("boxul;", "\u{2518}"),
    ("boxur;", "\u{2514}"), ("boxv;", "\u{2502}"), ("boxvH;", "\u{256A}"), ("boxvL;", "\u{2561}"),
    ("boxvR;", "\u{255E}"), ("boxvh;", "\u{253C}"), ("boxvl;", "\u{2524}"), ("boxvr;", "\u{251C}"),
    ("bprime;", "\u{2035}"), ("breve;", "\u{02D8}"), ("bscr;", "\u{1D4B7}"), ("bsemi;", "\u{204F}"),
    ("bsim;", "\u{223D}"), ("bsime;", "\u{22CD}"), ("bsol;", "\u{005C}"), ("bsolb;", "\u{29C5}"),
    ("bsolhsub;", "\u{27C8}"), ("bullet;", "\u{2022}"), ("bump;", "\u{224E}"), ("bumpE;", "\u{2AAE}"),
    ("bumpe;", "\u{224F}"), ("bumpeq;", "\u{224F}"), ("brvbar", "\u{00A6}"),
];

#[rattlefmt::skip]
static LOWER_C: [(&str, &str); 99] = [
    ("copy;", "\u{00A9}"), ("cap;", "\u{2229}"), ("ccedil;", "\u{00E7}"), ("cedil;", "\u{00B8}"),
    ("cent;", "\u{00A2}"), ("chi;", "\u{03C7}"), ("circ;", "\u{02C6}"), ("clubs;", "\u{2663}"), ("cong;", "\u{2245}"),
    ("crarr;", "\u{21B5}"), ("cup;", "\u{222A}"), ("curren;", "\u{00A4}"), ("cacute;", "\u{0107}"),
    ("capand;", "\u{2A44}"), ("capbrcup;", "\u{2A49}"), ("capcap;", "\u{2A4B}"), ("capcup;", "\u{2A47}"),
    ("capdot;", "\u{2A40}"), ("caps;", "\u{2229}\u{FE00}"), ("caret;", "\u{2041}"), ("caron;", "\u{02C7}"),
    ("ccaps;", "\u{2A4D}"), ("ccaron;", "\u{010D}"), ("ccirc;", "\u{0109}"), ("ccups;", "\u{2A4C}"),
    ("ccupssm;", "\u{2A50}"), ("cdot;", "\u{010B}"), ("cemptyv;", "\u{29B2}"), ("centerdot;", "\u{00B7}"),
    ("cfr;", "\u{1D520}"), ("chcy;", "\u{0447}"), ("check;", "\u{2713}"), ("checkmark;", "\u{2713}"),
    ("cir;", "\u{25CB}"), ("cirE;", "\u{29C3}"), ("circeq;", "\u{2257}"), ("circlearrowleft;", "\u{21BA}"),
    ("circlearrowright;", "\u{21BB}"), ("circledR;", "\u{00AE}"), ("circledS;", "\u{24C8}"),
    ("circledast;", "\u{229B}"), ("circledcirc;", "\u{229A}"), ("circleddash;", "\u{229D}"), ("cire;", "\u{2257}"),
    ("cirfnint;", "\u{2A10}"), ("cirmid;", "\u{2AEF}"), ("cirscir;", "\u{29C2}"), ("clubsuit;", "\u{2663}"),
    ("colon;", "\u{003A}"), ("colone;", "\u{2254}"), ("coloneq;", "\u{2254}"), ("comma;", "\u{002C}"),
    ("commat;", "\u{0040}"), ("comp;", "\u{2201}"), ("compfn;", "\u{2218}"), ("complement;", "\u{2201}"),
    ("complexes;", "\u{2102}"), ("congdot;", "\u{2A6D}"), ("conint;", "\u{222E}"), ("copf;", "\u{1D554}"),
    ("coprod;", "\u{2210}"), ("copysr;", "\u{2117}"), ("cross;", "\u{2717}"), ("cscr;", "\u{1D4B8}"),
    ("csub;", "\u{2ACF}"), ("csube;", "\u{2AD1}"), ("csup;", "\u{2AD0}"), ("csupe;", "\u{2AD2}"),
    ("ctdot;", "\u{22EF}"), ("cudarrl;", "\u{2938}"), ("cudarrr;", "\u{2935}"), ("cuepr;", "\u{22DE}"),
    ("cuesc;", "\u{22DF}"), ("cularr;", "\u{21B6}"), ("cularrp;", "\u{293D}"), ("cupbrcap;", "\u{2A48}"),
    ("cupcap;", "\u{2A46}"), ("cupcup;", "\u{2A4A}"), ("cupdot;", "\u{228D}"), ("cupor;", "\u{2A45}"),
    ("cups;", "\u{222A}\u{FE00}"), ("curarr;", "\u{21B7}"), ("curarrm;", "\u{293C}"), ("curlyeqprec;", "\u{22DE}"),
    ("curlyeqsucc;", "\u{22DF}"), ("curlyvee;", "\u{22CE}"), ("curlywedge;", "\u{22CF}"),
    ("curvearrowleft;", "\u{21B6}"), ("curvearrowright;", "\u{21B7}"), ("cuvee;", "\u{22CE}"), ("cuwed;", "\u{22CF}"),
    ("cwconint;", "\u{2232}"), ("cwint;", "\u{2231}"), ("cylcty;", "\u{232D}"), ("ccedil", "\u{00E7}"),
    ("curren", "\u{00A4}"), ("cedil", "\u{00B8}"), ("cent", "\u{00A2}"), ("copy", "\u{00A9}"),
];

#[rattlefmt::skip]
static LOWER_D: [(&str, &str); 66] = [
    ("deg;", "\u{00B0}"), ("dArr;", "\u{21D3}"), ("dagger;", "\u{2020}"), ("darr;", "\u{2193}"),
    ("delta;", "\u{03B4}"), ("diams;", "\u{2666}"), ("divide;", "\u{00F7}"), ("dHar;", "\u{2965}"),
    ("daleth;", "\u{2138}"), ("dash;", "\u{2010}"), ("dashv;", "\u{22A3}"), ("dbkarow;", "\u{290F}"),
    ("dblac;", "\u{02DD}"), ("dcaron;", "\u{010F}"), ("dcy;", "\u{0434}"), ("dd;", "\u{2146}"),
    ("ddagger;", "\u{2021}"), ("ddarr;", "\u{21CA}"), ("ddotseq;", "\u{2A77}"), ("demptyv;", "\u{29B1}"),
    ("dfisht;", "\u{297F}"), ("dfr;", "\u{1D521}"), ("dharl;", "\u{21C3}"), ("dharr;", "\u{21C2}"),
    ("diam;", "\u{22C4}"), ("diamond;", "\u{22C4}"), ("diamondsuit;", "\u{2666}"), ("die;", "\u{00A8}"),
    ("digamma;", "\u{03DD}"), ("disin;", "\u{22F2}"), ("div;", "\u{00F7}"), ("divideontimes;", "\u{22C7}"),
    ("divonx;", "\u{22C7}"), ("djcy;", "\u{0452}"), ("dlcorn;", "\u{231E}"), ("dlcrop;", "\u{230D}"),
    ("dollar;", "\u{0024}"), ("dopf;", "\u{1D555}"), ("dot;", "\u{02D9}"), ("doteq;", "\u{2250}"),
    ("doteqdot;", "\u{2251}"), ("dotminus;", "\u{2238}"), ("dotplus;", "\u{2214}"), ("dotsquare;", "\u{22A1}"),
    ("doublebarwedge;", "\u{2306}"), ("downarrow;", "\u{2193}"), ("downdownarrows;", "\u{21CA}"),
    ("downharpoonleft;", "\u{21C3}"), ("downharpoonright;", "\u{21C2}"), ("drbkarow;", "\u{2910}"),
    ("drcorn;", "\u{231F}"), ("drcrop;", "\u{230C}"), ("dscr;", "\u{1D4B9}"), ("dscy;", "\u{0455}"),
    ("dsol;", "\u{29F6}"), ("dstrok;", "\u{0111}"), ("dtdot;", "\u{22F1}"), ("dtri;", "\u{25BF}"),
    ("dtrif;", "\u{25BE}"), ("duarr;", "\u{21F5}"), ("duhar;", "\u{296F}"), ("dwangle;", "\u{29A6}"),
    ("dzcy;", "\u{045F}"), ("dzigrarr;", "\u{27FF}"), ("divide", "\u{00F7}"), ("deg", "\u{00B0}"),
];

#[rattlefmt::skip]
static LOWER_E: [(&str, &str); 67] = [
    ("euro;", "\u{20AC}"), ("eacute;", "\u{00E9}"), ("ecirc;", "\u{00EA}"), ("egrave;", "\u{00E8}"),
    ("empty;", "\u{2205}"), ("emsp;", "\u{2003}"), ("ensp;", "\u{2002}"), ("epsilon;", "\u{03B5}"),
    ("equiv;", "\u{2261}"), ("eta;", "\u{03B7}"), ("eth;", "\u{00F0}"), ("euml;", "\u{00EB}"), ("exist;", "\u{2203}"),
    ("eDDot;", "\u{2A77}"), ("eDot;", "\u{2251}"), ("easter;", "\u{2A6E}"), ("ecaron;", "\u{011B}"),
    ("ecir;", "\u{2256}"), ("ecolon;", "\u{2255}"), ("ecy;", "\u{044D}"), ("edot;", "\u{0117}"), ("ee;", "\u{2147}"),
    ("efDot;", "\u{2252}"), ("efr;", "\u{1D522}"), ("eg;", "\u{2A9A}"), ("egs;", "\u{2A96}"), ("egsdot;", "\u{2A98}"),
    ("el;", "\u{2A99}"), ("elinters;", "\u{23E7}"), ("ell;", "\u{2113}"), ("els;", "\u{2A95}"),
    ("elsdot;", "\u{2A97}"), ("emacr;", "\u{0113}"), ("emptyset;", "\u{2205}"), ("emptyv;", "\u{2205}"),
    ("emsp13;", "\u{2004}"), ("emsp14;", "\u{2005}"), ("eng;", "\u{014B}"), ("eogon;", "\u{0119}"),
    ("eopf;", "\u{1D556}"), ("epar;", "\u{22D5}"), ("eparsl;", "\u{29E3}"), ("eplus;", "\u{2A71}"),
    ("epsi;", "\u{03B5}"), ("epsiv;", "\u{03F5}"), ("eqcirc;", "\u{2256}"), ("eqcolon;", "\u{2255}"),
    ("eqsim;", "\u{2242}"), ("eqslantgtr;", "\u{2A96}"), ("eqslantless;", "\u{2A95}"), ("equals;", "\u{003D}"),
    ("equest;", "\u{225F}"), ("equivDD;", "\u{2A78}"), ("eqvparsl;", "\u{29E5}"), ("erDot;", "\u{2253}"),
    ("erarr;", "\u{2971}"), ("escr;", "\u{212F}"), ("esdot;", "\u{2250}"), ("esim;", "\u{2242}"),
    ("excl;", "\u{0021}"), ("expectation;", "\u{2130}"), ("exponentiale;", "\u{2147}"), ("eacute", "\u{00E9}"),
    ("egrave", "\u{00E8}"), ("ecirc", "\u{00EA}"), ("euml", "\u{00EB}"), ("eth", "\u{00F0}"),
];

#[rattlefmt::skip]
static LOWER_F: [(&str, &str); 39] = [
    ("fnof;", "\u{0192}"), ("forall;", "\u{2200}"), ("frac12;", "\u{00BD}"), ("frac14;", "\u{00BC}"),
    ("frac34;", "\u{00BE}"), ("frasl;", "\u{2044}"), ("fallingdotseq;", "\u{2252}"), ("fcy;", "\u{0444}"),
    ("female;", "\u{2640}"), ("ffilig;", "\u{FB03}"), ("fflig;", "\u{FB00}"), ("ffllig;", "\u{FB04}"),
    ("ffr;", "\u{1D523}"), ("filig;", "\u{FB01}"), ("fjlig;", "\u{0066}\u{006A}"), ("flat;", "\u{266D}"),
    ("fllig;", "\u{FB02}"), ("fltns;", "\u{25B1}"), ("fopf;", "\u{1D557}"), ("fork;", "\u{22D4}"),
    ("forkv;", "\u{2AD9}"), ("fpartint;", "\u{2A0D}"), ("frac13;", "\u{2153}"), ("frac15;", "\u{2155}"),
    ("frac16;", "\u{2159}"), ("frac18;", "\u{215B}"), ("frac23;", "\u{2154}"), ("frac25;", "\u{2156}"),
    ("frac35;", "\u{2157}"), ("frac38;", "\u{215C}"), ("frac45;", "\u{2158}"), ("frac56;", "\u{215A}"),
    ("frac58;", "\u{215D}"), ("frac78;", "\u{215E}"), ("frown;", "\u{2322}"), ("fscr;", "\u{1D4BB}"),
    ("frac12", "\u{00BD}"), ("frac14", "\u{00BC}"), ("frac34", "\u{00BE}"),
];

#[rattlefmt::skip]
static LOWER_G: [(&str, &str); 60] = [
    ("gt;", "\u{003E}"), ("gamma;", "\u{03B3}"), ("ge;", "\u{2265}"), ("gE;", "\u{2267}"), ("gEl;", "\u{2A8C}"),
    ("gacute;", "\u{01F5}"), ("gammad;", "\u{03DD}"), ("gap;", "\u{2A86}"), ("gbreve;", "\u{011F}"),
    ("gcirc;", "\u{011D}"), ("gcy;", "\u{0433}"), ("gdot;", "\u{0121}"), ("gel;", "\u{22DB}"), ("geq;", "\u{2265}"),
    ("geqq;", "\u{2267}"), ("geqslant;", "\u{2A7E}"), ("ges;", "\u{2A7E}"), ("gescc;", "\u{2AA9}"),
    ("gesdot;", "\u{2A80}"), ("gesdoto;", "\u{2A82}"), ("gesdotol;", "\u{2A84}"), ("gesl;", "\u{22DB}\u{FE00}"),
    ("gesles;", "\u{2A94}"), ("gfr;", "\u{1D524}"), ("gg;", "\u{226B}"), ("ggg;", "\u{22D9}"), ("gimel;", "\u{2137}"),
    ("gjcy;", "\u{0453}"), ("gl;", "\u{2277}"), ("glE;", "\u{2A92}"), ("gla;", "\u{2AA5}"), ("glj;", "\u{2AA4}"),
    ("gnE;", "\u{2269}"), ("gnap;", "\u{2A8A}"), ("gnapprox;", "\u{2A8A}"), ("gne;", "\u{2A88}"),
    ("gneq;", "\u{2A88}"), ("gneqq;", "\u{2269}"), ("gnsim;", "\u{22E7}"), ("gopf;", "\u{1D558}"),
    ("grave;", "\u{0060}"), ("gscr;", "\u{210A}"), ("gsim;", "\u{2273}"), ("gsime;", "\u{2A8E}"),
    ("gsiml;", "\u{2A90}"), ("gtcc;", "\u{2AA7}"), ("gtcir;", "\u{2A7A}"), ("gtdot;", "\u{22D7}"),
    ("gtlPar;", "\u{2995}"), ("gtquest;", "\u{2A7C}"), ("gtrapprox;", "\u{2A86}"), ("gtrarr;", "\u{2978}"),
    ("gtrdot;", "\u{22D7}"), ("gtreqless;", "\u{22DB}"), ("gtreqqless;", "\u{2A8C}"), ("gtrless;", "\u{2277}"),
    ("gtrsim;", "\u{2273}"), ("gvertneqq;", "\u{2269}\u{FE00}"), ("gvnE;", "\u{2269}\u{FE00}"), ("gt", "\u{003E}"),
];

#[rattlefmt::skip]
static LOWER_H: [(&str, &str); 28] = [
    ("hellip;", "\u{2026}"), ("hArr;", "\u{21D4}"), ("harr;", "\u{2194}"), ("hearts;", "\u{2665}"),
    ("hairsp;", "\u{200A}"), ("half;", "\u{00BD}"), ("hamilt;", "\u{210B}"), ("hardcy;", "\u{044A}"),
    ("harrcir;", "\u{2948}"), ("harrw;", "\u{21AD}"), ("hbar;", "\u{210F}"), ("hcirc;", "\u{0125}"),
    ("heartsuit;", "\u{2665}"), ("hercon;", "\u{22B9}"), ("hfr;", "\u{1D525}"), ("hksearow;", "\u{2925}"),
    ("hkswarow;", "\u{2926}"), ("hoarr;", "\u{21FF}"), ("homtht;", "\u{223B}"), ("hookleftarrow;", "\u{21A9}"),
    ("hookrightarrow;", "\u{21AA}"), ("hopf;", "\u{1D559}"), ("horbar;", "\u{2015}"), ("hscr;", "\u{1D4BD}"),
    ("hslash;", "\u{210F}"), ("hstrok;", "\u{0127}"), ("hybull;", "\u{2043}"), ("hyphen;", "\u{2010}"),
];

#[rattlefmt::skip]
static LOWER_I: [(&str, &str); 56] = [
    ("iacute;", "\u{00ED}"), ("icirc;", "\u{00EE}"), ("iexcl;", "\u{00A1}"), ("igrave;", "\u{00EC}"),
    ("image;", "\u{2111}"), ("infin;", "\u{221E}"), ("int;", "\u{222B}"), ("iota;", "\u{03B9}"),
    ("iquest;", "\u{00BF}"), ("isin;", "\u{2208}"), ("iuml;", "\u{00EF}"), ("ic;", "\u{2063}"), ("icy;", "\u{0438}"),
    ("iecy;", "\u{0435}"), ("iff;", "\u{21D4}"), ("ifr;", "\u{1D526}"), ("ii;", "\u{2148}"), ("iiiint;", "\u{2A0C}"),
    ("iiint;", "\u{222D}"), ("iinfin;", "\u{29DC}"), ("iiota;", "\u{2129}"), ("ijlig;", "\u{0133}"),
    ("imacr;", "\u{012B}"), ("imagline;", "\u{2110}"), ("imagpart;", "\u{2111}"), ("imath;", "\u{0131}"),
    ("imof;", "\u{22B7}"), ("imped;", "\u{01B5}"), ("in;", "\u{2208}"), ("incare;", "\u{2105}"),
    ("infintie;", "\u{29DD}"), ("inodot;", "\u{0131}"), ("intcal;", "\u{22BA}"), ("integers;", "\u{2124}"),
    ("intercal;", "\u{22BA}"), ("intlarhk;", "\u{2A17}"), ("intprod;", "\u{2A3C}"), ("iocy;", "\u{0451}"),
    ("iogon;", "\u{012F}"), ("iopf;", "\u{1D55A}"), ("iprod;", "\u{2A3C}"), ("iscr;", "\u{1D4BE}"),
    ("isinE;", "\u{22F9}"), ("isindot;", "\u{22F5}"), ("isins;", "\u{22F4}"), ("isinsv;", "\u{22F3}"),
    ("isinv;", "\u{2208}"), ("it;", "\u{2062}"), ("itilde;", "\u{0129}"), ("iukcy;", "\u{0456}"),
    ("iacute", "\u{00ED}"), ("igrave", "\u{00EC}"), ("iquest", "\u{00BF}"), ("icirc", "\u{00EE}"),
    ("iexcl", "\u{00A1}"), ("iuml", "\u{00EF}"),
];

#[rattlefmt::skip]
static LOWER_J: [(&str, &str); 8] = [
    ("jcirc;", "\u{0135}"), ("jcy;", "\u{0439}"), ("jfr;", "\u{1D527}"), ("jmath;", "\u{0237}"),
    ("jopf;", "\u{1D55B}"), ("jscr;", "\u{1D4BF}"), ("jsercy;", "\u{0458}"), ("jukcy;", "\u{0454}"),
];

#[rattlefmt::skip]
static LOWER_K: [(&str, &str); 10] = [
    ("kappa;", "\u{03BA}"), ("kappav;", "\u{03F0}"), ("kcedil;", "\u{0137}"), ("kcy;", "\u{043A}"),
    ("kfr;", "\u{1D528}"), ("kgreen;", "\u{0138}"), ("khcy;", "\u{0445}"), ("kjcy;", "\u{045C}"),
    ("kopf;", "\u{1D55C}"), ("kscr;", "\u{1D4C0}"),
];

#[rattlefmt::skip]
static LOWER_L: [(&str, &str); 154] = [
    ("lt;", "\u{003C}"), ("lsquo;", "\u{2018}"), ("ldquo;", "\u{201C}"), ("laquo;", "\u{00AB}"),
    ("larr;", "\u{2190}"), ("lArr;", "\u{21D0}"), ("lambda;", "\u{03BB}"), ("lang;", "\u{27E8}"),
    ("lceil;", "\u{2308}"), ("le;", "\u{2264}"), ("lfloor;", "\u{230A}"), ("lowast;", "\u{2217}"),
    ("loz;", "\u{25CA}"), ("lrm;", "\u{200E}"), ("lsaquo;", "\u{2039}"), ("lAarr;", "\u{21DA}"),
    ("lAtail;", "\u{291B}"), ("lBarr;", "\u{290E}"), ("lE;", "\u{2266}"), ("lEg;", "\u{2A8B}"), ("lHar;", "\u{2962}"),
    ("lacute;", "\u{013A}"), ("laemptyv;", "\u{29B4}"), ("lagran;", "\u{2112}"), ("langd;", "\u{2991}"),
    ("langle;", "\u{27E8}"), ("lap;", "\u{2A85}"), ("larrb;", "\u{21E4}"), ("larrbfs;", "\u{291F}"),
    ("larrfs;", "\u{291D}"), ("larrhk;", "\u{21A9}"), ("larrlp;", "\u{21AB}"), ("larrpl;", "\u{2939}"),
    ("larrsim;", "\u{2973}"), ("larrtl;", "\u{21A2}"), ("lat;", "\u{2AAB}"), ("latail;", "\u{2919}"),
    ("late;", "\u{2AAD}"), ("lates;", "\u{2AAD}\u{FE00}"), ("lbarr;", "\u{290C}"), ("lbbrk;", "\u{2772}"),
    ("lbrace;", "\u{007B}"), ("lbrack;", "\u{005B}"), ("lbrke;", "\u{298B}"), ("lbrksld;", "\u{298F}"),
    ("lbrkslu;", "\u{298D}"), ("lcaron;", "\u{013E}"), ("lcedil;", "\u{013C}"), ("lcub;", "\u{007B}"),
    ("lcy;", "\u{043B}"), ("ldca;", "\u{2936}"), ("ldquor;", "\u{201E}"), ("ldrdhar;", "\u{2967}"),
    ("ldrushar;", "\u{294B}"), ("ldsh;", "\u{21B2}"), ("leftarrow;", "\u{2190}"), ("leftarrowtail;", "\u{21A2}"),
    ("leftharpoondown;", "\u{21BD}"), ("leftharpoonup;", "\u{21BC}"), ("leftleftarrows;", "\u{21C7}"),
    ("leftrightarrow;", "\u{2194}"), ("leftrightarrows;", "\u{21C6}"), ("leftrightharpoons;", "\u{21CB}"),
    ("leftrightsquigarrow;", "\u{21AD}"), ("leftthreetimes;", "\u{22CB}"), ("leg;", "\u{22DA}"), ("leq;", "\u{2264}"),
    ("leqq;", "\u{2266}"), ("leqslant;", "\u{2A7D}"), ("les;", "\u{2A7D}"), ("lescc;", "\u{2AA8}"),
    ("lesdot;", "\u{2A7F}"), ("lesdoto;", "\u{2A81}"), ("lesdotor;", "\u{2A83}"), ("lesg;", "\u{22DA}\u{FE00}"),
    ("lesges;", "\u{2A93}"), ("lessapprox;", "\u{2A85}"), ("lessdot;", "\u{22D6}"), ("lesseqgtr;", "\u{22DA}"),
    ("lesseqqgtr;", "\u{2A8B}"), ("lessgtr;", "\u{2276}"), ("lesssim;", "\u{2272}"), ("lfisht;", "\u{297C}"),
    ("lfr;", "\u{1D529}"), ("lg;", "\u{2276}"), ("lgE;", "\u{2A91}"), ("lhard;", "\u{21BD}"), ("lharu;", "\u{21BC}"),
    ("lharul;", "\u{296A}"), ("lhblk;", "\u{2584}"), ("ljcy;", "\u{0459}"), ("ll;", "\u{226A}"),
    ("llarr;", "\u{21C7}"), ("llcorner;", "\u{231E}"), ("llhard;", "\u{296B}"), ("lltri;", "\u{25FA}"),
    ("lmidot;", "\u{0140}"), ("lmoust;", "\u{23B0}"), ("lmoustache;", "\u{23B0}"), ("lnE;", "\u{2268}"),
    ("lnap;", "\u{2A89}"), ("lnapprox;", "\u{2A89}"), ("lne;", "\u{2A87}"), ("lneq;", "\u{2A87}"),
    ("lneqq;", "\u{2268}"), ("lnsim;", "\u{22E6}"), ("loang;", "\u{27EC}"), ("loarr;", "\u{21FD}"),
    ("lobrk;", "\u{27E6}"), ("longleftarrow;", "\u{27F5}"), ("longleftrightarrow;", "\u{27F7}"),
    ("longmapsto;", "\u{27FC}"), ("longrightarrow;", "\u{27F6}"), ("looparrowleft;", "\u{21AB}"),
    ("looparrowright;", "\u{21AC}"), ("lopar;", "\u{2985}"), ("lopf;", "\u{1D55D}"), ("loplus;", "\u{2A2D}"),
    ("lotimes;", "\u{2A34}"), ("lowbar;", "\u{005F}"), ("lozenge;", "\u{25CA}"), ("lozf;", "\u{29EB}"),
    ("lpar;", "\u{0028}"), ("lparlt;", "\u{2993}"), ("lrarr;", "\u{21C6}"), ("lrcorner;", "\u{231F}"),
    ("lrhar;", "\u{21CB}"), ("lrhard;", "\u{296D}"), ("lrtri;", "\u{22BF}"), ("lscr;", "\u{1D4C1}"),
    ("lsh;", "\u{21B0}"), ("lsim;", "\u{2272}"), ("lsime;", "\u{2A8D}"), ("lsimg;", "\u{2A8F}"),
    ("lsqb;", "\u{005B}"), ("lsquor;", "\u{201A}"), ("lstrok;", "\u{0142}"), ("ltcc;", "\u{2AA6}"),
    ("ltcir;", "\u{2A79}"), ("ltdot;", "\u{22D6}"), ("lthree;", "\u{22CB}"), ("ltimes;", "\u{22C9}"),
    ("ltlarr;", "\u{2976}"), ("ltquest;", "\u{2A7B}"), ("ltrPar;", "\u{2996}"), ("ltri;", "\u{25C3}"),
    ("ltrie;", "\u{22B4}"), ("ltrif;", "\u{25C2}"), ("lurdshar;", "\u{294A}"), ("luruhar;", "\u{2966}"),
    ("lvertneqq;", "\u{2268}\u{FE00}"), ("lvnE;", "\u{2268}\u{FE00}"), ("laquo", "\u{00AB}"), ("lt", "\u{003C}"),
];

#[rattlefmt::skip]
static LOWER_M: [(&str, &str); 40] = [
    ("mdash;", "\u{2014}"), ("middot;", "\u{00B7}"), ("macr;", "\u{00AF}"), ("micro;", "\u{00B5}"),
    ("minus;", "\u{2212}"), ("mu;", "\u{03BC}"), ("mDDot;", "\u{223A}"), ("male;", "\u{2642}"), ("malt;", "\u{2720}"),
    ("maltese;", "\u{2720}"), ("map;", "\u{21A6}"), ("mapsto;", "\u{21A6}"), ("mapstodown;", "\u{21A7}"),
    ("mapstoleft;", "\u{21A4}"), ("mapstoup;", "\u{21A5}"), ("marker;", "\u{25AE}"), ("mcomma;", "\u{2A29}"),
    ("mcy;", "\u{043C}"), ("measuredangle;", "\u{2221}"), ("mfr;", "\u{1D52A}"), ("mho;", "\u{2127}"),
    ("mid;", "\u{2223}"), ("midast;", "\u{002A}"), ("midcir;", "\u{2AF0}"), ("minusb;", "\u{229F}"),
    ("minusd;", "\u{2238}"), ("minusdu;", "\u{2A2A}"), ("mlcp;", "\u{2ADB}"), ("mldr;", "\u{2026}"),
    ("mnplus;", "\u{2213}"), ("models;", "\u{22A7}"), ("mopf;", "\u{1D55E}"), ("mp;", "\u{2213}"),
    ("mscr;", "\u{1D4C2}"), ("mstpos;", "\u{223E}"), ("multimap;", "\u{22B8}"), ("mumap;", "\u{22B8}"),
    ("middot", "\u{00B7}"), ("micro", "\u{00B5}"), ("macr", "\u{00AF}"),
];

#[rattlefmt::skip]
static LOWER_N: [(&str, &str); 168] = [
    ("nbsp;", "\u{00A0}"), ("ndash;", "\u{2013}"), ("nabla;", "\u{2207}"), ("ne;", "\u{2260}"), ("ni;", "\u{220B}"),
    ("not;", "\u{00AC}"), ("notin;", "\u{2209}"), ("nsub;", "\u{2284}"), ("ntilde;", "\u{00F1}"), ("nu;", "\u{03BD}"),
    ("nGg;", "\u{22D9}\u{0338}"), ("nGt;", "\u{226B}\u{20D2}"), ("nGtv;", "\u{226B}\u{0338}"),
    ("nLeftarrow;", "\u{21CD}"), ("nLeftrightarrow;", "\u{21CE}"), ("nLl;", "\u{22D8}\u{0338}"),
    ("nLt;", "\u{226A}\u{20D2}"), ("nLtv;", "\u{226A}\u{0338}"), ("nRightarrow;", "\u{21CF}"),
    ("nVDash;", "\u{22AF}"), ("nVdash;", "\u{22AE}"), ("nacute;", "\u{0144}"), ("nang;", "\u{2220}\u{20D2}"),
    ("nap;", "\u{2249}"), ("napE;", "\u{2A70}\u{0338}"), ("napid;", "\u{224B}\u{0338}"), ("napos;", "\u{0149}"),
    ("napprox;", "\u{2249}"), ("natur;", "\u{266E}"), ("natural;", "\u{266E}"), ("naturals;", "\u{2115}"),
    ("nbump;", "\u{224E}\u{0338}"), ("nbumpe;", "\u{224F}\u{0338}"), ("ncap;", "\u{2A43}"), ("ncaron;", "\u{0148}"),
    ("ncedil;", "\u{0146}"), ("ncong;", "\u{2247}"), ("ncongdot;", "\u{2A6D}\u{0338}"), ("ncup;", "\u{2A42}"),
    ("ncy;", "\u{043D}"), ("neArr;", "\u{21D7}"), ("nearhk;", "\u{2924}"), ("nearr;", "\u{2197}"),
    ("nearrow;", "\u{2197}"), ("nedot;", "\u{2250}\u{0338}"), ("nequiv;", "\u{2262}"), ("nesear;", "\u{2928}"),
    ("nesim;", "\u{2242}\u{0338}"), ("nexist;", "\u{2204}"), ("nexists;", "\u{2204}"), ("nfr;", "\u{1D52B}"),
    ("ngE;", "\u{2267}\u{0338}"), ("nge;", "\u{2271}"), ("ngeq;", "\u{2271}"), ("ngeqq;", "\u{2267}\u{0338}"),
    ("ngeqslant;", "\u{2A7E}\u{0338}"), ("nges;", "\u{2A7E}\u{0338}"), ("ngsim;", "\u{2275}"), ("ngt;", "\u{226F}"),
    ("ngtr;", "\u{226F}"), ("nhArr;", "\u{21CE}"), ("nharr;", "\u{21AE}"), ("nhpar;", "\u{2AF2}"),
    ("nis;", "\u{22FC}"), ("nisd;", "\u{22FA}"), ("niv;", "\u{220B}"), ("njcy;", "\u{045A}"), ("nlArr;", "\u{21CD}"),
    ("nlE;", "\u{2266}\u{0338}"), ("nlarr;", "\u{219A}"), ("nldr;", "\u{2025}"), ("nle;", "\u{2270}"),
    ("nleftarrow;", "\u{219A}"), ("nleftrightarrow;", "\u{21AE}"), ("nleq;", "\u{2270}"),
    ("nleqq;", "\u{2266}\u{0338}"), ("nleqslant;", "\u{2A7D}\u{0338}"), ("nles;", "\u{2A7D}\u{0338}"),
    ("nless;", "\u{226E}"), ("nlsim;", "\u{2274}"), ("nlt;", "\u{226E}"), ("nltri;", "\u{22EA}"),
    ("nltrie;", "\u{22EC}"), ("nmid;", "\u{2224}"), ("nopf;", "\u{1D55F}"), ("notinE;", "\u{22F9}\u{0338}"),
    ("notindot;", "\u{22F5}\u{0338}"), ("notinva;", "\u{2209}"), ("notinvb;", "\u{22F7}"), ("notinvc;", "\u{22F6}"),
    ("notni;", "\u{220C}"), ("notniva;", "\u{220C}"), ("notnivb;", "\u{22FE}"), ("notnivc;", "\u{22FD}"),
    ("npar;", "\u{2226}"), ("nparallel;", "\u{2226}"), ("nparsl;", "\u{2AFD}\u{20E5}"),
    ("npart;", "\u{2202}\u{0338}"), ("npolint;", "\u{2A14}"), ("npr;", "\u{2280}"), ("nprcue;", "\u{22E0}"),
    ("npre;", "\u{2AAF}\u{0338}"), ("nprec;", "\u{2280}"), ("npreceq;", "\u{2AAF}\u{0338}"), ("nrArr;", "\u{21CF}"),
    ("nrarr;", "\u{219B}"), ("nrarrc;", "\u{2933}\u{0338}"), ("nrarrw;", "\u{219D}\u{0338}"),
    ("nrightarrow;", "\u{219B}"), ("nrtri;", "\u{22EB}"), ("nrtrie;", "\u{22ED}"), ("nsc;", "\u{2281}"),
    ("nsccue;", "\u{22E1}"), ("nsce;", "\u{2AB0}\u{0338}"), ("nscr;", "\u{1D4C3}"), ("nshortmid;", "\u{2224}"),
    ("nshortparallel;", "\u{2226}"), ("nsim;", "\u{2241}"), ("nsime;", "\u{2244}"), ("nsimeq;", "\u{2244}"),
    ("nsmid;", "\u{2224}"), ("nspar;", "\u{2226}"), ("nsqsube;", "\u{22E2}"), ("nsqsupe;", "\u{22E3}"),
    ("nsubE;", "\u{2AC5}\u{0338}"), ("nsube;", "\u{2288}"), ("nsubset;", "\u{2282}\u{20D2}"),
    ("nsubseteq;", "\u{2288}"), ("nsubseteqq;", "\u{2AC5}\u{0338}"), ("nsucc;", "\u{2281}"),
    ("nsucceq;", "\u{2AB0}\u{0338}"), ("nsup;", "\u{2285}"), ("nsupE;", "\u{2AC6}\u{0338}"), ("nsupe;", "\u{2289}"),
    ("nsupset;", "\u{2283}\u{20D2}"), ("nsupseteq;", "\u{2289}"), ("nsupseteqq;", "\u{2AC6}\u{0338}"),
    ("ntgl;", "\u{2279}"), ("ntlg;", "\u{2278}"), ("ntriangleleft;", "\u{22EA}"), ("ntrianglelefteq;", "\u{22EC}"),
    ("ntriangleright;", "\u{22EB}"), ("ntrianglerighteq;", "\u{22ED}"), ("num;", "\u{0023}"), ("numero;", "\u{2116}"),
    ("numsp;", "\u{2007}"), ("nvDash;", "\u{22AD}"), ("nvHarr;", "\u{2904}"), ("nvap;", "\u{224D}\u{20D2}"),
    ("nvdash;", "\u{22AC}"), ("nvge;", "\u{2265}\u{20D2}"), ("nvgt;", "\u{003E}\u{20D2}"), ("nvinfin;", "\u{29DE}"),
    ("nvlArr;", "\u{2902}"), ("nvle;", "\u{2264}\u{20D2}"), ("nvlt;", "\u{003C}\u{20D2}"),
    ("nvltrie;", "\u{22B4}\u{20D2}"), ("nvrArr;", "\u{2903}"), ("nvrtrie;", "\u{22B5}\u{20D2}"),
    ("nvsim;", "\u{223C}\u{20D2}"), ("nwArr;", "\u{21D6}"), ("nwarhk;", "\u{2923}"), ("nwarr;", "\u{2196}"),
    ("nwarrow;", "\u{2196}"), ("nwnear;", "\u{2927}"), ("ntilde", "\u{00F1}"), ("nbsp", "\u{00A0}"),
    ("not", "\u{00AC}"),
];

#[rattlefmt::skip]
static LOWER_O: [(&str, &str); 61] = [
    ("ouml;", "\u{00F6}"), ("oacute;", "\u{00F3}"), ("ocirc;", "\u{00F4}"), ("oelig;", "\u{0153}"),
    ("ograve;", "\u{00F2}"), ("oline;", "\u{203E}"), ("omega;", "\u{03C9}"), ("omicron;", "\u{03BF}"),
    ("oplus;", "\u{2295}"), ("or;", "\u{2228}"), ("ordf;", "\u{00AA}"), ("ordm;", "\u{00BA}"),
    ("oslash;", "\u{00F8}"), ("otilde;", "\u{00F5}"), ("otimes;", "\u{2297}"), ("oS;", "\u{24C8}"),
    ("oast;", "\u{229B}"), ("ocir;", "\u{229A}"), ("ocy;", "\u{043E}"), ("odash;", "\u{229D}"),
    ("odblac;", "\u{0151}"), ("odiv;", "\u{2A38}"), ("odot;", "\u{2299}"), ("odsold;", "\u{29BC}"),
    ("ofcir;", "\u{29BF}"), ("ofr;", "\u{1D52C}"), ("ogon;", "\u{02DB}"), ("ogt;", "\u{29C1}"),
    ("ohbar;", "\u{29B5}"), ("ohm;", "\u{03A9}"), ("oint;", "\u{222E}"), ("olarr;", "\u{21BA}"),
    ("olcir;", "\u{29BE}"), ("olcross;", "\u{29BB}"), ("olt;", "\u{29C0}"), ("omacr;", "\u{014D}"),
    ("omid;", "\u{29B6}"), ("ominus;", "\u{2296}"), ("oopf;", "\u{1D560}"), ("opar;", "\u{29B7}"),
    ("operp;", "\u{29B9}"), ("orarr;", "\u{21BB}"), ("ord;", "\u{2A5D}"), ("order;", "\u{2134}"),
    ("orderof;", "\u{2134}"), ("origof;", "\u{22B6}"), ("oror;", "\u{2A56}"), ("orslope;", "\u{2A57}"),
    ("orv;", "\u{2A5B}"), ("oscr;", "\u{2134}"), ("osol;", "\u{2298}"), ("otimesas;", "\u{2A36}"),
    ("ovbar;", "\u{233D}"), ("oacute", "\u{00F3}"), ("ograve", "\u{00F2}"), ("oslash", "\u{00F8}"),
    ("otilde", "\u{00F5}"), ("ocirc", "\u{00F4}"), ("ordf", "\u{00AA}"), ("ordm", "\u{00BA}"), ("ouml", "\u{00F6}"),
];

#[rattlefmt::skip]
static LOWER_P: [(&str, &str); 69] = [
    ("para;", "\u{00B6}"), ("part;", "\u{2202}"), ("permil;", "\u{2030}"), ("perp;", "\u{22A5}"),
    ("phi;", "\u{03C6}"), ("pi;", "\u{03C0}"), ("piv;", "\u{03D6}"), ("plusmn;", "\u{00B1}"), ("pound;", "\u{00A3}"),
    ("prime;", "\u{2032}"), ("prod;", "\u{220F}"), ("prop;", "\u{221D}"), ("psi;", "\u{03C8}"), ("par;", "\u{2225}"),
    ("parallel;", "\u{2225}"), ("parsim;", "\u{2AF3}"), ("parsl;", "\u{2AFD}"), ("pcy;", "\u{043F}"),
    ("percnt;", "\u{0025}"), ("period;", "\u{002E}"), ("pertenk;", "\u{2031}"), ("pfr;", "\u{1D52D}"),
    ("phiv;", "\u{03D5}"), ("phmmat;", "\u{2133}"), ("phone;", "\u{260E}"), ("pitchfork;", "\u{22D4}"),
    ("planck;", "\u{210F}"), ("planckh;", "\u{210E}"), ("plankv;", "\u{210F}"), ("plus;", "\u{002B}"),
    ("plusacir;", "\u{2A23}"), ("plusb;", "\u{229E}"), ("pluscir;", "\u{2A22}"), ("plusdo;", "\u{2214}"),
    ("plusdu;", "\u{2A25}"), ("pluse;", "\u{2A72}"), ("plussim;", "\u{2A26}"), ("plustwo;", "\u{2A27}"),
    ("pm;", "\u{00B1}"), ("pointint;", "\u{2A15}"), ("popf;", "\u{1D561}"), ("pr;", "\u{227A}"), ("prE;", "\u{2AB3}"),
    ("prap;", "\u{2AB7}"), ("prcue;", "\u{227C}"), ("pre;", "\u{2AAF}"), ("prec;", "\u{227A}"),
    ("precapprox;", "\u{2AB7}"), ("preccurlyeq;", "\u{227C}"), ("preceq;", "\u{2AAF}"), ("precnapprox;", "\u{2AB9}"),
    ("precneqq;", "\u{2AB5}"), ("precnsim;", "\u{22E8}"), ("precsim;", "\u{227E}"), ("primes;", "\u{2119}"),
    ("prnE;", "\u{2AB5}"), ("prnap;", "\u{2AB9}"), ("prnsim;", "\u{22E8}"), ("profalar;", "\u{232E}"),
    ("profline;", "\u{2312}"), ("profsurf;", "\u{2313}"), ("propto;", "\u{221D}"), ("prsim;", "\u{227E}"),
    ("prurel;", "\u{22B0}"), ("pscr;", "\u{1D4C5}"), ("puncsp;", "\u{2008}"), ("plusmn", "\u{00B1}"),
    ("pound", "\u{00A3}"), ("para", "\u{00B6}"),
];

#[rattlefmt::skip]
static LOWER_Q: [(&str, &str); 11] = [
    ("quot;", "\u{0022}"), ("qfr;", "\u{1D52E}"), ("qint;", "\u{2A0C}"), ("qopf;", "\u{1D562}"),
    ("qprime;", "\u{2057}"), ("qscr;", "\u{1D4C6}"), ("quaternions;", "\u{210D}"), ("quatint;", "\u{2A16}"),
    ("quest;", "\u{003F}"), ("questeq;", "\u{225F}"), ("quot", "\u{0022}"),
];

#[rattlefmt::skip]
static LOWER_R: [(&str, &str); 104] = [
    ("rsquo;", "\u{2019}"), ("rdquo;", "\u{201D}"), ("reg;", "\u{00AE}"), ("raquo;", "\u{00BB}"),
    ("rarr;", "\u{2192}"), ("rArr;", "\u{21D2}"), ("radic;", "\u{221A}"), ("rang;", "\u{27E9}"),
    ("rceil;", "\u{2309}"), ("real;", "\u{211C}"), ("rfloor;", "\u{230B}"), ("rho;", "\u{03C1}"),
    ("rlm;", "\u{200F}"), ("rsaquo;", "\u{203A}"), ("rAarr;", "\u{21DB}"), ("rAtail;", "\u{291C}"),
    ("rBarr;", "\u{290F}"), ("rHar;", "\u{2964}"), ("race;", "\u{223D}\u{0331}"), ("racute;", "\u{0155}"),
    ("raemptyv;", "\u{29B3}"), ("rangd;", "\u{2992}"), ("range;", "\u{29A5}"), ("rangle;", "\u{27E9}"),
    ("rarrap;", "\u{2975}"), ("rarrb;", "\u{21E5}"), ("rarrbfs;", "\u{2920}"), ("rarrc;", "\u{2933}"),
    ("rarrfs;", "\u{291E}"), ("rarrhk;", "\u{21AA}"), ("rarrlp;", "\u{21AC}"), ("rarrpl;", "\u{2945}"),
    ("rarrsim;", "\u{2974}"), ("rarrtl;", "\u{21A3}"), ("rarrw;", "\u{219D}"), ("ratail;", "\u{291A}"),
    ("ratio;", "\u{2236}"), ("rationals;", "\u{211A}"), ("rbarr;", "\u{290D}"), ("rbbrk;", "\u{2773}"),
    ("rbrace;", "\u{007D}"), ("rbrack;", "\u{005D}"), ("rbrke;", "\u{298C}"), ("rbrksld;", "\u{298E}"),
    ("rbrkslu;", "\u{2990}"), ("rcaron;", "\u{0159}"), ("rcedil;", "\u{0157}"), ("rcub;", "\u{007D}"),
    ("rcy;", "\u{0440}"), ("rdca;", "\u{2937}"), ("rdldhar;", "\u{2969}"), ("rdquor;", "\u{201D}"),
    ("rdsh;", "\u{21B3}"), ("realine;", "\u{211B}"), ("realpart;", "\u{211C}"), ("reals;", "\u{211D}"),
    ("rect;", "\u{25AD}"), ("rfisht;", "\u{297D}"), ("rfr;", "\u{1D52F}"), ("rhard;", "\u{21C1}"),
    ("rharu;", "\u{21C0}"), ("rharul;", "\u{296C}"), ("rhov;", "\u{03F1}"), ("rightarrow;", "\u{2192}"),
    ("rightarrowtail;", "\u{21A3}"), ("rightharpoondown;", "\u{21C1}"), ("rightharpoonup;", "\u{21C0}"),
    ("rightleftarrows;", "\u{21C4}"), ("rightleftharpoons;", "\u{21CC}"), ("rightrightarrows;", "\u{21C9}"),
    ("rightsquigarrow;", "\u{219D}"), ("rightthreetimes;", "\u{22CC}"), ("ring;", "\u{02DA}"),
    ("risingdotseq;", "\u{2253}"), ("rlarr;", "\u{21C4}"), ("rlhar;", "\u{21CC}"), ("rmoust;", "\u{23B1}"),
    ("rmoustache;", "\u{23B1}"), ("rnmid;", "\u{2AEE}"), ("roang;", "\u{27ED}"), ("roarr;", "\u{21FE}"),
    ("robrk;", "\u{27E7}"), ("ropar;", "\u{2986}"), ("ropf;", "\u{1D563}"), ("roplus;", "\u{2A2E}"),
    ("rotimes;", "\u{2A35}"), ("rpar;", "\u{0029}"), ("rpargt;", "\u{2994}"), ("rppolint;", "\u{2A12}"),
    ("rrarr;", "\u{21C9}"), ("rscr;", "\u{1D4C7}"), ("rsh;", "\u{21B1}"), ("rsqb;", "\u{005D}"),
    ("rsquor;", "\u{2019}"), ("rthree;", "\u{22CC}"), ("rtimes;", "\u{22CA}"), ("rtri;", "\u{25B9}"),
    ("rtrie;", "\u{22B5}"), ("rtrif;", "\u{25B8}"), ("rtriltri;", "\u{29CE}"), ("ruluhar;", "\u{2968}"),
    ("rx;", "\u{211E}"), ("raquo", "\u{00BB}"), ("reg", "\u{00AE}"),
];

#[rattlefmt::skip]
static LOWER_S: [(&str, &str); 158] = [
    ("shy;", "\u{00AD}"), ("szlig;", "\u{00DF}"), ("sbquo;", "\u{201A}"), ("scaron;", "\u{0161}"),
    ("sdot;", "\u{22C5}"), ("sect;", "\u{00A7}"), ("sigma;", "\u{03C3}"), ("sigmaf;", "\u{03C2}"),
    ("sim;", "\u{223C}"), ("spades;", "\u{2660}"), ("sub;", "\u{2282}"), ("sube;", "\u{2286}"), ("sum;", "\u{2211}"),
    ("sup1;", "\u{00B9}"), ("sup2;", "\u{00B2}"), ("sup3;", "\u{00B3}"), ("sup;", "\u{2283}"), ("supe;", "\u{2287}"),
    ("sacute;", "\u{015B}"), ("sc;", "\u{227B}"), ("scE;", "\u{2AB4}"), ("scap;", "\u{2AB8}"), ("sccue;", "\u{227D}"),
    ("sce;", "\u{2AB0}"), ("scedil;", "\u{015F}"), ("scirc;", "\u{015D}"), ("scnE;", "\u{2AB6}"),
    ("scnap;", "\u{2ABA}"), ("scnsim;", "\u{22E9}"), ("scpolint;", "\u{2A13}"), ("scsim;", "\u{227F}"),
    ("scy;", "\u{0441}"), ("sdotb;", "\u{22A1}"), ("sdote;", "\u{2A66}"), ("seArr;", "\u{21D8}"),
    ("searhk;", "\u{2925}"), ("searr;", "\u{2198}"), ("searrow;", "\u{2198}"), ("semi;", "\u{003B}"),
    ("seswar;", "\u{2929}"), ("setminus;", "\u{2216}"), ("setmn;", "\u{2216}"), ("sext;", "\u{2736}"),
    ("sfr;", "\u{1D530}"), ("sfrown;", "\u{2322}"), ("sharp;", "\u{266F}"), ("shchcy;", "\u{0449}"),
    ("shcy;", "\u{0448}"), ("shortmid;", "\u{2223}"), ("shortparallel;", "\u{2225}"), ("sigmav;", "\u{03C2}"),
    ("simdot;", "\u{2A6A}"), ("sime;", "\u{2243}"), ("simeq;", "\u{2243}"), ("simg;", "\u{2A9E}"),
    ("simgE;", "\u{2AA0}"), ("siml;", "\u{2A9D}"), ("simlE;", "\u{2A9F}"), ("simne;", "\u{2246}"),
    ("simplus;", "\u{2A24}"), ("simrarr;", "\u{2972}"), ("slarr;", "\u{2190}"), ("smallsetminus;", "\u{2216}"),
    ("smashp;", "\u{2A33}"), ("smeparsl;", "\u{29E4}"), ("smid;", "\u{2223}"), ("smile;", "\u{2323}"),
    ("smt;", "\u{2AAA}"), ("smte;", "\u{2AAC}"), ("smtes;", "\u{2AAC}\u{FE00}"), ("softcy;", "\u{044C}"),
    ("sol;", "\u{002F}"), ("solb;", "\u{29C4}"), ("solbar;", "\u{233F}"), ("sopf;", "\u{1D564}"),
    ("spadesuit;", "\u{2660}"), ("spar;", "\u{2225}"), ("sqcap;", "\u{2293}"), ("sqcaps;", "\u{2293}\u{FE00}"),
    ("sqcup;", "\u{2294}"), ("sqcups;", "\u{2294}\u{FE00}"), ("sqsub;", "\u{228F}"), ("sqsube;", "\u{2291}"),
    ("sqsubset;", "\u{228F}"), ("sqsubseteq;", "\u{2291}"), ("sqsup;", "\u{2290}"), ("sqsupe;", "\u{2292}"),
    ("sqsupset;", "\u{2290}"), ("sqsupseteq;", "\u{2292}"), ("squ;", "\u{25A1}"), ("square;", "\u{25A1}"),
    ("squarf;", "\u{25AA}"), ("squf;", "\u{25AA}"), ("srarr;", "\u{2192}"), ("sscr;", "\u{1D4C8}"),
    ("ssetmn;", "\u{2216}"), ("ssmile;", "\u{2323}"), ("sstarf;", "\u{22C6}"), ("star;", "\u{2606}"),
    ("starf;", "\u{2605}"), ("straightepsilon;", "\u{03F5}"), ("straightphi;", "\u{03D5}"), ("strns;", "\u{00AF}"),
    ("subE;", "\u{2AC5}"), ("subdot;", "\u{2ABD}"), ("subedot;", "\u{2AC3}"), ("submult;", "\u{2AC1}"),
    ("subnE;", "\u{2ACB}"), ("subne;", "\u{228A}"), ("subplus;", "\u{2ABF}"), ("subrarr;", "\u{2979}"),
    ("subset;", "\u{2282}"), ("subseteq;", "\u{2286}"), ("subseteqq;", "\u{2AC5}"), ("subsetneq;", "\u{228A}"),
    ("subsetneqq;", "\u{2ACB}"), ("subsim;", "\u{2AC7}"), ("subsub;", "\u{2AD5}"), ("subsup;", "\u{2AD3}"),
    ("succ;", "\u{227B}"), ("succapprox;", "\u{2AB8}"), ("succcurlyeq;", "\u{227D}"), ("succeq;", "\u{2AB0}"),
    ("succnapprox;", "\u{2ABA}"), ("succneqq;", "\u{2AB6}"), ("succnsim;", "\u{22E9}"), ("succsim;", "\u{227F}"),
    ("sung;", "\u{266A}"), ("supE;", "\u{2AC6}"), ("supdot;", "\u{2ABE}"), ("supdsub;", "\u{2AD8}"),
    ("supedot;", "\u{2AC4}"), ("suphsol;", "\u{27C9}"), ("suphsub;", "\u{2AD7}"), ("suplarr;", "\u{297B}"),
    ("supmult;", "\u{2AC2}"), ("supnE;", "\u{2ACC}"), ("supne;", "\u{228B}"), ("supplus;", "\u{2AC0}"),
    ("supset;", "\u{2283}"), ("supseteq;", "\u{2287}"), ("supseteqq;", "\u{2AC6}"), ("supsetneq;", "\u{228B}"),
    ("supsetneqq;", "\u{2ACC}"), ("supsim;", "\u{2AC8}"), ("supsub;", "\u{2AD4}"), ("supsup;", "\u{2AD6}"),
    ("swArr;", "\u{21D9}"), ("swarhk;", "\u{2926}"), ("swarr;", "\u{2199}"), ("swarrow;", "\u{2199}"),
    ("swnwar;", "\u{292A}"), ("szlig", "\u{00DF}"), ("sect", "\u{00A7}"), ("sup1", "\u{00B9}"), ("sup2", "\u{00B2}"),
    ("sup3", "\u{00B3}"), ("shy", "\u{00AD}"),
];

#[rattlefmt::skip]
static LOWER_T: [(&str, &str); 58] = [
    ("trade;", "\u{2122}"), ("times;", "\u{00D7}"), ("tau;", "\u{03C4}"), ("there4;", "\u{2234}"),
    ("theta;", "\u{03B8}"), ("thetasym;", "\u{03D1}"), ("thinsp;", "\u{2009}"), ("thorn;", "\u{00FE}"),
    ("tilde;", "\u{02DC}"), ("target;", "\u{2316}"), ("tbrk;", "\u{23B4}"), ("tcaron;", "\u{0165}"),
    ("tcedil;", "\u{0163}"), ("tcy;", "\u{0442}"), ("tdot;", "\u{20DB}"), ("telrec;", "\u{2315}"),
    ("tfr;", "\u{1D531}"), ("therefore;", "\u{2234}"), ("thetav;", "\u{03D1}"), ("thickapprox;", "\u{2248}"),
    ("thicksim;", "\u{223C}"), ("thkap;", "\u{2248}"), ("thksim;", "\u{223C}"), ("timesb;", "\u{22A0}"),
    ("timesbar;", "\u{2A31}"), ("timesd;", "\u{2A30}"), ("tint;", "\u{222D}"), ("toea;", "\u{2928}"),
    ("top;", "\u{22A4}"), ("topbot;", "\u{2336}"), ("topcir;", "\u{2AF1}"), ("topf;", "\u{1D565}"),
    ("topfork;", "\u{2ADA}"), ("tosa;", "\u{2929}"), ("tprime;", "\u{2034}"), ("triangle;", "\u{25B5}"),
    ("triangledown;", "\u{25BF}"), ("triangleleft;", "\u{25C3}"), ("trianglelefteq;", "\u{22B4}"),
    ("triangleq;", "\u{225C}"), ("triangleright;", "\u{25B9}"), ("trianglerighteq;", "\u{22B5}"),
    ("tridot;", "\u{25EC}"), ("trie;", "\u{225C}"), ("triminus;", "\u{2A3A}"), ("triplus;", "\u{2A39}"),
    ("trisb;", "\u{29CD}"), ("tritime;", "\u{2A3B}"), ("trpezium;", "\u{23E2}"), ("tscr;", "\u{1D4C9}"),
    ("tscy;", "\u{0446}"), ("tshcy;", "\u{045B}"), ("tstrok;", "\u{0167}"), ("twixt;", "\u{226C}"),
    ("twoheadleftarrow;", "\u{219E}"), ("twoheadrightarrow;", "\u{21A0}"), ("thorn", "\u{00FE}"),
    ("times", "\u{00D7}"),
];

#[rattlefmt::skip]
static LOWER_U: [(&str, &str); 52] = [
    ("uuml;", "\u{00FC}"), ("uArr;", "\u{21D1}"), ("uacute;", "\u{00FA}"), ("uarr;", "\u{2191}"),
    ("ucirc;", "\u{00FB}"), ("ugrave;", "\u{00F9}"), ("uml;", "\u{00A8}"), ("upsih;", "\u{03D2}"),
    ("upsilon;", "\u{03C5}"), ("uHar;", "\u{2963}"), ("ubrcy;", "\u{045E}"), ("ubreve;", "\u{016D}"),
    ("ucy;", "\u{0443}"), ("udarr;", "\u{21C5}"), ("udblac;", "\u{0171}"), ("udhar;", "\u{296E}"),
    ("ufisht;", "\u{297E}"), ("ufr;", "\u{1D532}"), ("uharl;", "\u{21BF}"), ("uharr;", "\u{21BE}"),
    ("uhblk;", "\u{2580}"), ("ulcorn;", "\u{231C}"), ("ulcorner;", "\u{231C}"), ("ulcrop;", "\u{230F}"),
    ("ultri;", "\u{25F8}"), ("umacr;", "\u{016B}"), ("uogon;", "\u{0173}"), ("uopf;", "\u{1D566}"),
    ("uparrow;", "\u{2191}"), ("updownarrow;", "\u{2195}"), ("upharpoonleft;", "\u{21BF}"),
    ("upharpoonright;", "\u{21BE}"), ("uplus;", "\u{228E}"), ("upsi;", "\u{03C5}"), ("upuparrows;", "\u{21C8}"),
    ("urcorn;", "\u{231D}"), ("urcorner;", "\u{231D}"), ("urcrop;", "\u{230E}"), ("uring;", "\u{016F}"),
    ("urtri;", "\u{25F9}"), ("uscr;", "\u{1D4CA}"), ("utdot;", "\u{22F0}"), ("utilde;", "\u{0169}"),
    ("utri;", "\u{25B5}"), ("utrif;", "\u{25B4}"), ("uuarr;", "\u{21C8}"), ("uwangle;", "\u{29A7}"),
    ("uacute", "\u{00FA}"), ("ugrave", "\u{00F9}"), ("ucirc", "\u{00FB}"), ("uuml", "\u{00FC}"), ("uml", "\u{00A8}"),
];

#[rattlefmt::skip]
static LOWER_V: [(&str, &str); 42] = [
    ("vArr;", "\u{21D5}"), ("vBar;", "\u{2AE8}"), ("vBarv;", "\u{2AE9}"), ("vDash;", "\u{22A8}"),
    ("vangrt;", "\u{299C}"), ("varepsilon;", "\u{03F5}"), ("varkappa;", "\u{03F0}"), ("varnothing;", "\u{2205}"),
    ("varphi;", "\u{03D5}"), ("varpi;", "\u{03D6}"), ("varpropto;", "\u{221D}"), ("varr;", "\u{2195}"),
    ("varrho;", "\u{03F1}"), ("varsigma;", "\u{03C2}"), ("varsubsetneq;", "\u{228A}\u{FE00}"),
    ("varsubsetneqq;", "\u{2ACB}\u{FE00}"), ("varsupsetneq;", "\u{228B}\u{FE00}"),
    ("varsupsetneqq;", "\u{2ACC}\u{FE00}"), ("vartheta;", "\u{03D1}"), ("vartriangleleft;", "\u{22B2}"),
    ("vartriangleright;", "\u{22B3}"), ("vcy;", "\u{0432}"), ("vdash;", "\u{22A2}"), ("vee;", "\u{2228}"),
    ("veebar;", "\u{22BB}"), ("veeeq;", "\u{225A}"), ("vellip;", "\u{22EE}"), ("verbar;", "\u{007C}"),
    ("vert;", "\u{007C}"), ("vfr;", "\u{1D533}"), ("vltri;", "\u{22B2}"), ("vnsub;", "\u{2282}\u{20D2}"),
    ("vnsup;", "\u{2283}\u{20D2}"), ("vopf;", "\u{1D567}"), ("vprop;", "\u{221D}"), ("vrtri;", "\u{22B3}"),
    ("vscr;", "\u{1D4CB}"), ("vsubnE;", "\u{2ACB}\u{FE00}"), ("vsubne;", "\u{228A}\u{FE00}"),
    ("vsupnE;", "\u{2ACC}\u{FE00}"), ("vsupne;", "\u{228B}\u{FE00}"), ("vzigzag;", "\u{299A}"),
];

#[rattlefmt::skip]
static LOWER_W: [(&str, &str); 11] = [
    ("weierp;", "\u{2118}"), ("wcirc;", "\u{0175}"), ("wedbar;", "\u{2A5F}"), ("wedge;", "\u{2227}"),
    ("wedgeq;", "\u{2259}"), ("wfr;", "\u{1D534}"), ("wopf;", "\u{1D568}"), ("wp;", "\u{2118}"), ("wr;", "\u{2240}"),
    ("wreath;", "\u{2240}"), ("wscr;", "\u{1D4CC}"),
];

#[rattlefmt::skip]
static LOWER_X: [(&str, &str); 24] = [
    ("xi;", "\u{03BE}"), ("xcap;", "\u{22C2}"), ("xcirc;", "\u{25EF}"), ("xcup;", "\u{22C3}"), ("xdtri;", "\u{25BD}"),
    ("xfr;", "\u{1D535}"), ("xhArr;", "\u{27FA}"), ("xharr;", "\u{27F7}"), ("xlArr;", "\u{27F8}"),
    ("xlarr;", "\u{27F5}"), ("xmap;", "\u{27FC}"), ("xnis;", "\u{22FB}"), ("xodot;", "\u{2A00}"),
    ("xopf;", "\u{1D569}"), ("xoplus;", "\u{2A01}"), ("xotime;", "\u{2A02}"), ("xrArr;", "\u{27F9}"),
    ("xrarr;", "\u{27F6}"), ("xscr;", "\u{1D4CD}"), ("xsqcup;", "\u{2A06}"), ("xuplus;", "\u{2A04}"),
    ("xutri;", "\u{25B3}"), ("xvee;", "\u{22C1}"), ("xwedge;", "\u{22C0}"),
];

#[rattlefmt::skip]
static LOWER_Y: [(&str, &str); 14] = [
    ("yacute;", "\u{00FD}"), ("yen;", "\u{00A5}"), ("yuml;", "\u{00FF}"), ("yacy;", "\u{044F}"),
    ("ycirc;", "\u{0177}"), ("ycy;", "\u{044B}"), ("yfr;", "\u{1D536}"), ("yicy;", "\u{0457}"),
    ("yopf;", "\u{1D56A}"), ("yscr;", "\u{1D4CE}"), ("yucy;", "\u{044E}"), ("yacute", "\u{00FD}"),
    ("yuml", "\u{00FF}"), ("yen", "\u{00A5}"),
];

#[rattlefmt::skip]
static LOWER_Z: [(&str, &str); 13] = [
    ("zwnj;", "\u{200C}"), ("zwj;", "\u{200D}"), ("zeta;", "\u{03B6}"), ("zacute;", "\u{017A}"),
    ("zcaron;", "\u{017E}"), ("zcy;", "\u{0437}"), ("zdot;", "\u{017C}"), ("zeetrf;", "\u{2128}"),
    ("zfr;", "\u{1D537}"), ("zhcy;", "\u{0436}"), ("zigrarr;", "\u{21DD}"), ("zopf;", "\u{1D56B}"),
    ("zscr;", "\u{1D4CF}"),
];

/// Returns the names by their first letters; a name is after each longer name that begins with it.
#[rattlefmt::skip]
pub(crate) fn named() -> [(u8, &'static [(&'static str, &'static str)]); 52] {
    [
        (b'A', &UPPER_A),
        (b'B', &UPPER_B),
        (b'C', &UPPER_C),
        (b'D', &UPPER_D),
        (b'E', &UPPER_E),
        (b'F', &UPPER_F),
        (b'G', &UPPER_G),
        (b'H', &UPPER_H),
        (b'I', &UPPER_I),
        (b'J', &UPPER_J),
        (b'K', &UPPER_K),
        (b'L', &UPPER_L),
        (b'M', &UPPER_M),
        (b'N', &UPPER_N),
        (b'O', &UPPER_O),
        (b'P', &UPPER_P),
        (b'Q', &UPPER_Q),
        (b'R', &UPPER_R),
        (b'S', &UPPER_S),
        (b'T', &UPPER_T),
        (b'U', &UPPER_U),
        (b'V', &UPPER_V),
        (b'W', &UPPER_W),
        (b'X', &UPPER_X),
        (b'Y', &UPPER_Y),
        (b'Z', &UPPER_Z),
        (b'a', &LOWER_A),
        (b'b', &LOWER_B),
        (b'c', &LOWER_C),
        (b'd', &LOWER_D),
        (b'e', &LOWER_E),
        (b'f', &LOWER_F),
        (b'g', &LOWER_G),
        (b'h', &LOWER_H),
        (b'i', &LOWER_I),
        (b'j', &LOWER_J),
        (b'k', &LOWER_K),
        (b'l', &LOWER_L),
        (b'm', &LOWER_M),
        (b'n', &LOWER_N),
        (b'o', &LOWER_O),
        (b'p', &LOWER_P),
        (b'q', &LOWER_Q),
        (b'r', &LOWER_R),
        (b's', &LOWER_S),
        (b't', &LOWER_T),
        (b'u', &LOWER_U),
        (b'v', &LOWER_V),
        (b'w', &LOWER_W),
        (b'x', &LOWER_X),
        (b'y', &LOWER_Y),
        (b'z', &LOWER_Z),
    ]
}
